ghost use Rattle.std.specs.Prelude.{◌≡◌, ◌≤◌, ℕ, suc, Result, Ok, length};
ghost use Rattle.ql_lines.specs.Lines.{Numbered};
ghost use Rattle.ql_lines.specs.declared.fault.Broken.{Broken};
ghost use Rattle.ql_lines.specs.Answers.{IsEndAnswer, IsLineAnswer};

use crate::fault::{FileFault, LineFault};

/// A format of line files: how each line changes the state that the lines before it lead to, and
/// what a file says that ends in a state.
pub trait LineFormat {
    /// What the lines read so far say.
    type State: Drop;
    /// What a whole file says.
    type Said: Drop;
    /// The rules that a line can break.
    type Rule: Copy;

    // The state before the first line.
    ghost start: { Self → Self.State };

    // An invariant of the state, for a number of lines that are still to come.
    ghost sound: { Self → Self.State → ℕ → Type 0 };

    // Whether a file may have this many bytes, and so each of its lines.
    ghost allows: { Self → ℕ → Type 0 };

    // What a line does to a state: the next state, or the rule that the line breaks.
    ghost gives: { Self → Self.State → Numbered → Result Self.State Self.Rule → Type 0 };

    // What a file says that ends in a state, or its fault. The number is that of the line after its last one.
    ghost closes: { Self → Self.State → ℕ → Result Self.Said (Broken Self.Rule) → Type 0 };

    fn start(&self) -> Self::State
        ensures { result ≡ start self.now };

    /// The state after one more line, which has this number.
    fn take(
        &self,
        state: Self::State,
        number: u64,
        text: &[u8],
    ) -> Result<Self::State, LineFault<Self::Rule>>
        requires sound { (more : ℕ) × sound self.now state (suc more) }
        requires allowed { allows self.now (length text.now) }
        ensures { IsLineAnswer (gives self.now state (record { number = number; text = text.now }))
            result };

    /// What a file says that ends in this state. `end` is the number of the line after its last one.
    fn finish(&self, state: Self::State, end: u64) -> Result<Self::Said, FileFault<Self::Rule>>
        ensures { IsEndAnswer (closes self.now state end) result };

    ghost allows_less: { (f : Self) (n most : ℕ) → n ≤ most → allows f most → allows f n };

    ghost stays_sound: { (f : Self) (s t : Self.State) (l : Numbered) (more : ℕ) → allows f (length l.text) → sound f s (suc more) → gives f s l (Ok t) → sound f t more };

    // A line has one result, and always has one.
    ghost gives_one: { (f : Self) (s : Self.State) (l : Numbered) (x y : Result Self.State Self.Rule) → gives f s l x → gives f s l y → x ≡ y };

    ghost gives_some: { (f : Self) (s : Self.State) (l : Numbered) → ((x : Result Self.State Self.Rule) → gives f s l x → ⊥) → ⊥ };

    // So has a file's end.
    ghost closes_one: { (f : Self) (s : Self.State) (end : ℕ) (x y : Result Self.Said (Broken Self.Rule)) → closes f s end x → closes f s end y → x ≡ y };

    ghost closes_some: { (f : Self) (s : Self.State) (end : ℕ) → ((x : Result Self.Said (Broken Self.Rule)) → closes f s end x → ⊥) → ⊥ };
}
