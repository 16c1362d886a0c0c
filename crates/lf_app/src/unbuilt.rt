//! The first line of a script on which a form stands that doesn't run yet.

ghost use Rattle.std.specs.Prelude.{◌≡◌, flat_map};
ghost use Rattle.lf_app.specs.Unbuilt as spec;

use lf_code::{Body, Code, Placed};
use lf_machine::runs;

// The lesser of two lines, where there are two.
fn lesser_line(one: Option<u32>, other: Option<u32>) -> Option<u32>
    ensures { result ≡ spec.lesser_line one other }
{
    match (one, other) {
        (Some(one), Some(other)) => Some(one.min(other)),
        (one, None) => one,
        (None, other) => other,
    }
}

// The line of an instruction, where it doesn't run yet.
fn line_unbuilt(placed: &Placed) -> Option<u32>
    ensures { result ≡ spec.least_line (spec.line_unbuilt placed.now) }
{
    if runs(&placed.instr) {
        None
    } else {
        Some(placed.line)
    }
}

// The first of the instructions' lines.
fn first_of_instrs(list: &[Placed]) -> Option<u32>
    ensures { result ≡ spec.least_line (flat_map spec.line_unbuilt list.now) }
{
    let mut least = None;
    for placed in list {
        least = lesser_line(least, line_unbuilt(placed));
    }
    least
}

// The first of the bodies' lines.
fn first_of_bodies(bodies: &[Body]) -> Option<u32>
    ensures { result ≡ spec.least_line (flat_map spec.lines_unbuilt bodies.now) }
{
    let mut least = None;
    for body in bodies {
        least = lesser_line(least, first_of_instrs(body.list.as_slice()));
    }
    least
}

/// The first line of a script, by its code, on which a form stands that doesn't run yet. `None`
/// comes exactly where there is no such line.
pub fn first_unbuilt(code: &Code) -> Option<u32>
    ensures line { result ≡ spec.first_unbuilt code.now }
{
    first_of_bodies(code.bodies())
}
