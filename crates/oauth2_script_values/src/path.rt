//! The path from a script to a member of it, and its text.

ghost use Rattle.std.specs.Prelude.{◌≡◌, ◌++◌, string_bytes, IfOk, OnOk};
ghost use Rattle.oauth2_script_values.specs.Path.{first_text, path_text, step_text};
ghost use Rattle.oauth2_script_values.specs.Gives.{path_view, step_view};

use std::alloc::{AllocError, Global};

/// One step from a value to a value inside it.
#[derive(Clone, Copy)]
pub enum Step {
    /// To the member of this name.
    Member(&'static str),
    /// To the item at this index.
    Item(usize),
    /// None: the path has ended.
    End,
}

/// The steps from a value to a value inside it, of which a script has four at most.
#[derive(Clone, Copy)]
pub struct Path {
    pub first: Step,
    pub second: Step,
    pub third: Step,
    pub fourth: Step,
}

fn push_first(text: &mut String, step: Step) -> Result<(), AllocError>
    ensures { OnOk result (string_bytes text.new ≡ string_bytes text.old
        ++ first_text (step_view step)) }
{
    match step {
        Step::Member(name) => write!(text, "{name}"),
        Step::Item(index) => write!(text, "[{index}]"),
        Step::End => Ok(()),
    }
}

fn push_step(text: &mut String, step: Step) -> Result<(), AllocError>
    ensures { OnOk result (string_bytes text.new ≡ string_bytes text.old
        ++ step_text (step_view step)) }
{
    match step {
        Step::Member(name) => write!(text, ".{name}"),
        Step::Item(index) => write!(text, "[{index}]"),
        Step::End => Ok(()),
    }
}

/// The text of a path, as `replies[2].status`.
pub fn path_text(alloc: Global, path: Path) -> Result<String, AllocError>
    ensures { IfOk result (λ t. string_bytes t ≡ path_text (path_view path)) }
{
    let mut text = String::new(alloc);
    push_first(&mut text, path.first)?;
    push_step(&mut text, path.second)?;
    push_step(&mut text, path.third)?;
    push_step(&mut text, path.fourth)?;
    Ok(text)
}
