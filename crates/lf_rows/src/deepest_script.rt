use lf_base::OutOfMemory;
use std::alloc::Global;

// A line after so many spaces.
fn push_line(script: &mut String, indent: usize, line: &str) -> Result<(), OutOfMemory> {
    for _space in 0..indent {
        script.push_str(" ")?;
    }
    script.push_str(line)?;
    script.push_str("\n")?;
    Ok(())
}

// An `if` with as many `elif`s as there may be, whose last block is still to come.
fn push_chain(script: &mut String, indent: usize) -> Result<(), OutOfMemory> {
    push_line(script, indent, "if True:")?;
    for _elif in 0..32 {
        push_line(script, indent, " pass")?;
        push_line(script, indent, "elif True:")?;
    }
    Ok(())
}

/// The script with the deepest tree: as many blocks as there may be, one in another, each the last
/// one of a whole chain, and in the innermost a sum that fills its line.
pub fn deepest_script(alloc: Global) -> Result<String, OutOfMemory> {
    let mut script = String::new(alloc);
    for indent in 0..64 {
        push_chain(&mut script, indent)?;
    }
    for _space in 0..64 {
        script.push_str(" ")?;
    }
    script.push_str("x=1")?;
    for _term in 0..510 {
        script.push_str("+1")?;
    }
    Ok(script)
}
