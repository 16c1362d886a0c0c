//! Scripts from their bytes to their code.

use crate::accounts::ACCOUNTS;
use crate::deepest_script::deepest_script;
use crate::long_scripts::{Repeated, script_of};
use lf_base::{MOST_SCRIPT_BYTES, OutOfMemory, ReadFail, Texts};
use lf_code::{Bodies, Body, BodyName, Code, CodeFail, Instr, Instrs, Placed};
use lf_codegen::{Script, code_laws, read};
use lf_emit::generate;
use std::alloc::Global;
use std::test::Fail;

// The number of bodies of a script's code, and that of main's instructions.
fn sizes(alloc: Global, bytes: &[u8]) -> Result<(usize, usize), ReadFail> {
    if bytes.len() > MOST_SCRIPT_BYTES {
        return Ok((0, 0));
    }
    let Script { resolved, texts } = read(alloc, bytes)?;
    code_laws::read_scripts_are_fit();
    let code = generate(alloc, &resolved, texts)?;
    let main = match code.body(0) {
        Some(body) => body.list.len(),
        None => 0,
    };
    Ok((code.bodies().len(), main))
}

#[test]
fn scripts_have_their_code(rt: HostRuntime) -> Result<(), Fail> {
    let alloc = rt.alloc();
    assert_eq!(rt; sizes(alloc, b"")?, (1, 2));
    assert_eq!(rt; sizes(alloc, b"x = {}\nx.f = 41 + 1\nprint(x.f)")?, (1, 18));
    assert_eq!(rt; sizes(alloc, ACCOUNTS.as_bytes())?, (5, 30));
    Ok(())
}

#[test]
fn the_deepest_script_has_its_code(rt: HostRuntime) -> Result<(), Fail> {
    let script = deepest_script(rt.alloc())?;
    assert_eq!(rt; sizes(rt.alloc(), script.as_bytes())?, (1, 11457));
    Ok(())
}

// The sizes of the code of a part, so many times.
fn sizes_of_repeated(
    alloc: Global,
    part: &'static str,
    times: usize,
) -> Result<(usize, usize), ReadFail> {
    let script = script_of(alloc, &[Repeated { part, times }])?;
    sizes(alloc, script.as_bytes())
}

#[test]
fn the_longest_scripts_have_their_code(rt: HostRuntime) -> Result<(), Fail> {
    let statements = sizes_of_repeated(rt.alloc(), "x=1\n", 262_144)?;
    assert_eq!(rt; statements, (1, 786_434));
    let whens = sizes_of_repeated(rt.alloc(), "when:\n pass\n", 87_381)?;
    assert_eq!(rt; whens, (87_382, 174_764));
    Ok(())
}

// A main of these instructions, without variables.
fn main_of(alloc: Global, instrs: [Instr; 2]) -> Result<Bodies, OutOfMemory> {
    let mut list = Instrs::new(alloc);
    for instr in instrs {
        if list.push(Placed { line: 0, instr }).is_err() {
            return Err(OutOfMemory);
        }
    }
    let mut bodies = Bodies::new(alloc);
    let main = Body {
        name: BodyName::Main,
        params: 0,
        vars: 0,
        list,
    };
    match bodies.push(main) {
        Ok(()) => Ok(bodies),
        Err(_) => Err(OutOfMemory),
    }
}

#[test]
fn code_is_checked(rt: HostRuntime) -> Result<(), Fail> {
    let right = main_of(rt.alloc(), [Instr::None, Instr::Return])?;
    let code = Code::check(rt.alloc(), right, Texts::new(rt.alloc())?);
    assert!(rt; matches!(code, Ok(_)));
    let wrong = main_of(rt.alloc(), [Instr::Pop, Instr::Return])?;
    let refused = Code::check(rt.alloc(), wrong, Texts::new(rt.alloc())?);
    assert!(rt; matches!(refused, Err(CodeFail::Invalid(_, _))));
    Ok(())
}

#[test]
fn code_without_main_is_not_valid(rt: HostRuntime) -> Result<(), Fail> {
    let texts = Texts::new(rt.alloc())?;
    let refused = Code::check(rt.alloc(), Bodies::new(rt.alloc()), texts);
    assert!(rt; matches!(refused, Err(CodeFail::Invalid(_, _))));
    Ok(())
}
