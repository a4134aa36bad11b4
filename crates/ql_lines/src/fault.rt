ghost use Rattle.std.specs.Prelude.{◌≡◌};

use std::alloc::AllocFailed;

/// Why a line may not follow the lines before it.
#[derive(Clone, Copy)]
pub enum LineFault<R> {
    /// The rule that it breaks. If it breaks several, the format says which one is reported.
    Breaks(R),
    /// Out of memory.
    NoMemory,
}

/// The first fault of a file: a line, counted from 1, and the rule that it breaks. A file that ends
/// too early has its fault on the line after its last one, unless its format says otherwise.
#[derive(Clone, Copy)]
pub struct Broken<R> {
    pub line: u64,
    pub rule: R,
}

/// Why a file can't be read.
#[derive(Clone, Copy)]
pub enum FileFault<R> {
    Broken(Broken<R>),
    /// Out of memory.
    NoMemory,
}

impl<R: Copy> LineFault<R> {
    ghost use Rattle.ql_lines.specs.Answers.{fault_at};

    /// The same as a fault of the file, at a line.
    pub fn at(self, line: u64) -> FileFault<R>
        ensures { result ≡ fault_at self line }
    {
        match self {
            LineFault::Breaks(rule) => FileFault::Broken(Broken { line, rule }),
            LineFault::NoMemory => FileFault::NoMemory,
        }
    }
}

impl<R> From<ql_base::NoMemory> for LineFault<R> {
    ghost use Rattle.std.specs.Prelude.{◌≡◌};
    ghost use Rattle.ql_lines.specs.declared.fault.LineFault.TheVariants.{NoMemory};

    ghost from_gives = { λ _ e. e ≡ NoMemory };

    fn from(_error: ql_base::NoMemory) -> LineFault<R> {
        LineFault::NoMemory
    }
}

impl<R, T: Drop> From<AllocFailed<T>> for LineFault<R> {
    ghost use Rattle.std.specs.Prelude.{◌≡◌};
    ghost use Rattle.ql_lines.specs.declared.fault.LineFault.TheVariants.{NoMemory};

    ghost from_gives = { λ _ e. e ≡ NoMemory };

    fn from(_error: AllocFailed<T>) -> LineFault<R> {
        LineFault::NoMemory
    }
}
