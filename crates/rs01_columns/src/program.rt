//! The steps of a column program.
//!
//! A column holds a byte of each of many codewords. A program adds multiples of columns to others.

ghost use Rattle.std.specs.Prelude.{◌≡◌, ◌≤◌, All, IfSome, IsTrue};
ghost use Rattle.rs01_columns.specs.Running.{IsWithin};

/// Adds `factor` times the column `from` to the column `into`, which is cleared before where it
/// begins `fresh`.
#[derive(Clone, Copy)]
pub struct Step {
    pub into: u16,
    pub from: u16,
    pub factor: u8,
    pub fresh: bool,
}

/// Four steps in a row.
#[derive(Clone, Copy)]
pub struct FourSteps {
    pub one: Step,
    pub two: Step,
    pub three: Step,
    pub four: Step,
}

/// Steps, each between two different ones of so many columns, at least those of a word.
#[derive(Drop)]
pub struct Program {
    pub columns: usize,
    pub steps: Vec<Step>,
    ghost least: { 255 ≤ columns },
    ghost most: { columns ≤ 65536 },
    ghost within: { All (IsWithin columns) steps.items },
}

// Whether the step is between two different ones of the columns.
fn is_within(step: Step, columns: usize) -> bool
    ensures { IsTrue result → IsWithin columns step }
{
    (step.into as usize) < columns && (step.from as usize) < columns && step.into != step.from
}

// Whether each step is between two different ones of the columns.
fn are_within(steps: &[Step], columns: usize) -> bool
    ensures { IsTrue result → All (IsWithin columns) steps.now }
{
    for step in steps {
        if !is_within(*step, columns) {
            return false;
        }
    }
    true
}

impl Program {
    /// The program of these steps, or `None` where one isn't between two different ones of the
    /// columns.
    pub fn new(steps: Vec<Step>, columns: usize) -> Option<Program>
        requires least { 255 ≤ columns }
        requires most { columns ≤ 65536 }
        ensures { IfSome result (λ program. program.columns ≡ columns) }
    {
        if are_within(&steps, columns) {
            Some(Program { columns, steps })
        } else {
            None
        }
    }
}
