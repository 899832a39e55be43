//! A layer of the instrument: a search of its acts determines its answers.

ghost use Rattle.std.specs.Prelude.{◌≡◌, List, ◌∷◌, ◌++◌, reverse};

/// A part of the instrument, on which acts are performed one after the other.
///
/// The law of a layer: suppose that a value stands for a list of acts, the newest first. Then after
/// `act` the value stands for the list with `act` in front, and the answer to `act` is the one that
/// a search of the list determines.
pub trait Layer {
    /// An act of the layer.
    type Act;
    /// The answer to an act.
    type Answer;

    /// The value stands for a list of acts.
    ghost stands_for: { Self → List Self.Act → Type 0 };

    /// After this list of acts, the layer answers the next act with this answer.
    ghost gives: { List Self.Act → Self.Act → Self.Answer → Type 0 };

    /// Performs an act, and returns its answer.
    fn act(&mut self, act: Self::Act) -> Self::Answer
        ensures stands { (log : List Self.Act) → stands_for self.old log
            → stands_for self.new (act ∷ log) }
        ensures answer { (log : List Self.Act) → stands_for self.old log → gives log act result };
}

/// Performs acts in order, and discards the answers. Tests bring a layer to a state by it.
pub fn act_each<L: Layer>(layer: &mut L, acts: &[L::Act])
where
    L::Act: Copy,
    L::Answer: Drop,
    ensures { (log : List L.Act) → L.stands_for layer.old log
        → L.stands_for layer.new (reverse acts.now ++ log) }
{
    for act in acts {
        layer.act(*act);
    }
}
