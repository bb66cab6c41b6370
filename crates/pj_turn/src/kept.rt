// What is kept behind a turn, and what is done in one turn.
ghost use Rattle.std.specs.Prelude.{◌≡◌, ℕ, List};
ghost use Rattle.pj_turn.specs.Meanings.{KeptMeaning, ActMeaning};
ghost use Rattle.pj_turn.specs.History.{Ready, Did};

/// A state that stands for a list of entries, one for each act that was made on it.
///
/// `Fixed` is the part of a state that no act changes, as plain data; contracts alone speak of it. The meaning says
/// which number an entry has, which lists a value stands for, what is kept of each such list, and what a value's fixed
/// part is.
pub trait Kept {
    type Entry;

    type Fixed;

    ghost meaning: { KeptMeaning Self Self.Entry Self.Fixed };
}

/// What is done in one turn. It makes one entry, which has the seat's number and is known when `act` returns.
///
/// The meaning says what the act needs before its turn, which entry it makes, and what it gives beside the entry.
pub trait Act<T: Kept> {
    type Answer;

    ghost meaning: { Self → ActMeaning T T.Entry T.Fixed Self.Answer };

    /// Does it. The state stands for a list that begins with all that the seat has seen; behind that no entry has the
    /// seat's number. Afterwards it stands for this list with the act's entry at the end, and has the same fixed part.
    fn act(self, state: &mut T) -> Self::Answer
        requires { (f : T.Fixed) × (n : ℕ) × (seen : List T.Entry) × (log : List T.Entry) × Ready T.meaning (meaning self) f state.old n seen log }
        ensures fixed { T.meaning.fixed state.new ≡ T.meaning.fixed state.old }
        ensures done { (f : T.Fixed) (n : ℕ) (seen log : List T.Entry) → Ready T.meaning (meaning self) f state.old n seen log → Did T.meaning (meaning self) n log state.old result state.new };
}
