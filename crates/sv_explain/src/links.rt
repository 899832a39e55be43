//! The lines of links that came into a list, or left it.

ghost use Rattle.std.specs.Prelude.{◌≡◌, ◌++◌, [], map, decimal, if◌then◌else◌};
ghost use Rattle.std.specs.List.{concat};
ghost use Rattle.sv_print.specs.Parts.{parts_text};
ghost use Rattle.sv_print.specs.Printed.{Prints};
ghost use Rattle.sv_explain.specs.Lines.{has_link, links_lines, links_without, value_line};
ghost use Rattle.sv_explain.specs.Inside.Names.{came_line, left_line, list_name, off_text, on_text};

use crate::shown::Listed;
use std::io::Write;
use sv_print::{Part, put};

/// A list of links.
#[derive(Clone, Copy)]
pub(crate) enum ListOf {
    /// The links that exist; a line tells the connection of a link.
    Links,
    /// The links that have service requests enabled.
    Asking,
}

impl ListOf {
    /// The list's name.
    fn name(self) -> &'static [u8]
        ensures { result.now ≡ list_name self }
    {
        match self {
            ListOf::Links => b"link.",
            ListOf::Asking => b"srq.",
        }
    }

    /// The word for a link that left the list.
    fn off(self) -> &'static [u8]
        ensures { result.now ≡ off_text self }
    {
        match self {
            ListOf::Links => b"none",
            ListOf::Asking => b"off",
        }
    }

    /// The parts of the text for a link that came into the list; a part that isn't needed is empty.
    fn on(self, link: Listed) -> [Part<'static>; 2]
        ensures { parts_text result ≡ on_text self link }
    {
        match self {
            ListOf::Links => [Part::Bytes(b"c"), Part::Number(u64::from(link.conn))],
            ListOf::Asking => [Part::Bytes(b"on"), Part::Bytes(b"")],
        }
    }
}

/// Whether a link is in this list.
fn has_link(links: &[Listed], lid: u32) -> bool
    ensures { result ≡ has_link links.now lid }
{
    links.iter().any(|link| link.lid == lid)
}

/// Writes the line of a link.
fn put_link<W: Write>(writer: &mut W, failed: &mut bool, of: ListOf, lid: u32, text: &[Part<'_>])
    ensures { Prints (W.contents writer.old) failed.old (W.contents writer.new) failed.new
        (value_line (list_name of ++ decimal lid) (parts_text text.now)) }
{
    put(
        writer,
        failed,
        &[
            Part::Bytes(b"= "),
            Part::Bytes(of.name()),
            Part::Number(u64::from(lid)),
            Part::Bytes(b" "),
        ],
    );
    put(writer, failed, text);
    put(writer, failed, &[Part::Bytes(b"\n")])
}

/// Writes the line of a link that isn't in the new list.
fn put_left<W: Write>(writer: &mut W, failed: &mut bool, of: ListOf, link: Listed, new: &[Listed])
    ensures { Prints (W.contents writer.old) failed.old (W.contents writer.new) failed.new
        (if has_link new.now link.lid then [] else left_line of link) }
{
    if !has_link(new, link.lid) {
        put_link(writer, failed, of, link.lid, &[Part::Bytes(of.off())])
    }
}

/// Writes the lines of the links that left a list.
fn put_all_left<W: Write>(
    writer: &mut W,
    failed: &mut bool,
    of: ListOf,
    old: &[Listed],
    new: &[Listed],
)
    ensures { Prints (W.contents writer.old) failed.old (W.contents writer.new) failed.new
        (concat (map (left_line of) (links_without old.now new.now))) }
{
    for link in old {
        put_left(writer, failed, of, *link, new);
    }
}

/// Writes the line of a link that isn't in the old list.
fn put_come<W: Write>(writer: &mut W, failed: &mut bool, of: ListOf, link: Listed, old: &[Listed])
    ensures { Prints (W.contents writer.old) failed.old (W.contents writer.new) failed.new
        (if has_link old.now link.lid then [] else came_line of link) }
{
    if !has_link(old, link.lid) {
        put_link(writer, failed, of, link.lid, &of.on(link))
    }
}

/// Writes the lines of the links that came into a list.
fn put_all_come<W: Write>(
    writer: &mut W,
    failed: &mut bool,
    of: ListOf,
    old: &[Listed],
    new: &[Listed],
)
    ensures { Prints (W.contents writer.old) failed.old (W.contents writer.new) failed.new
        (concat (map (came_line of) (links_without new.now old.now))) }
{
    for link in new {
        put_come(writer, failed, of, *link, old);
    }
}

/// Writes the lines of the links that left a list, and then of those that came.
pub(crate) fn put_links<W: Write>(
    writer: &mut W,
    failed: &mut bool,
    of: ListOf,
    old: &[Listed],
    new: &[Listed],
)
    ensures { Prints (W.contents writer.old) failed.old (W.contents writer.new) failed.new
        (links_lines (list_name of) (off_text of) (on_text of) old.now new.now) }
{
    put_all_left(writer, failed, of, old, new);
    put_all_come(writer, failed, of, old, new)
}
