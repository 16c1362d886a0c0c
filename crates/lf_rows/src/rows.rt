use crate::check_rows::check_rows;
use crate::deepest_script::deepest_script;
use crate::fault_rows::fault_rows;
use crate::listing_rows::listing_rows;
use crate::long_runs::{LongRun, full_output, most_objects};
use crate::long_scripts::{LongScript, long_scripts, script_of};
use crate::not_built_rows::not_built_rows;
use crate::ownership_rows::ownership_rows;
use crate::refusal_rows::refusal_rows;
use crate::row::{Row, WHOLE};
use crate::run_rows::run_rows;
use crate::stream_rows::stream_rows;
use crate::transfer_rows::transfer_rows;
use crate::word_rows::word_rows;
use lf_app::{MainStore, Report, Status, Word, tool, top};
use lf_base::OutOfMemory;
use lf_outside::{MemSink, MemSource, NoGate};
use std::alloc::Global;
use std::process::Abort;
use std::test::Fail;

fn words_of(alloc: Global, texts: &[&str]) -> Result<Vec<Word>, OutOfMemory> {
    let mut words = Vec::new(alloc);
    for text in texts {
        words.push(Word::from_text(alloc, text)?)?;
    }
    Ok(words)
}

fn check_report(rt: &impl Abort, row: &Row, report: &Report, sink: &MemSink) {
    assert!(rt; report.status == row.status, "{}: the status", row.name);
    assert!(rt;
        sink.bytes() == row.text.as_bytes(),
        "{}: the text",
        row.name
    );
    assert!(rt;
        report.order.as_slice() == row.order,
        "{}: the journal",
        row.name
    );
}

fn check_row<R: Abort>(rt: &R, alloc: Global, row: &Row, by_top: bool) -> Result<(), OutOfMemory> {
    assert!(rt; row.source.most > 0 && row.sink.most > 0);
    let words = words_of(alloc, row.words)?;
    let script = row.script.as_bytes();
    let mut source = MemSource::new(alloc, script, row.source.most, row.source.failing)?;
    let mut sink = MemSink::new(alloc, 1000, row.sink.most, row.sink.failing)?;
    let words = words.as_slice();
    let report = if by_top {
        top::<R, MainStore, _, _, _>(rt, alloc, words, &mut source, &mut sink, &NoGate)
    } else {
        tool::<R, MainStore, _, _, _>(rt, alloc, words, &mut source, &mut sink, &NoGate)
    };
    check_report(rt, row, &report, &sink);
    Ok(())
}

// Tries the rows of a table through both ways into the program.
fn check_rows_of<R: Abort>(rt: &R, alloc: Global, rows: &[Row]) -> Result<(), OutOfMemory> {
    for row in rows {
        check_row(rt, alloc, row, false)?;
        check_row(rt, alloc, row, true)?;
    }
    Ok(())
}

#[test]
fn scripts_run(rt: HostRuntime) -> Result<(), Fail> {
    check_rows_of(&rt, rt.alloc(), run_rows())?;
    Ok(())
}

#[test]
fn scripts_with_regions_run(rt: HostRuntime) -> Result<(), Fail> {
    check_rows_of(&rt, rt.alloc(), ownership_rows())?;
    Ok(())
}

#[test]
fn scripts_that_change_regions_run(rt: HostRuntime) -> Result<(), Fail> {
    check_rows_of(&rt, rt.alloc(), transfer_rows())?;
    Ok(())
}

#[test]
fn faults_end_scripts(rt: HostRuntime) -> Result<(), Fail> {
    check_rows_of(&rt, rt.alloc(), fault_rows())?;
    Ok(())
}

#[test]
fn scripts_do_not_run_yet(rt: HostRuntime) -> Result<(), Fail> {
    check_rows_of(&rt, rt.alloc(), not_built_rows())?;
    Ok(())
}

#[test]
fn scripts_are_refused(rt: HostRuntime) -> Result<(), Fail> {
    check_rows_of(&rt, rt.alloc(), refusal_rows())?;
    Ok(())
}

#[test]
fn scripts_are_checked(rt: HostRuntime) -> Result<(), Fail> {
    check_rows_of(&rt, rt.alloc(), check_rows())?;
    Ok(())
}

#[test]
fn scripts_are_listed(rt: HostRuntime) -> Result<(), Fail> {
    check_rows_of(&rt, rt.alloc(), listing_rows())?;
    Ok(())
}

#[test]
fn words_are_refused(rt: HostRuntime) -> Result<(), Fail> {
    check_rows_of(&rt, rt.alloc(), word_rows())?;
    Ok(())
}

#[test]
fn sources_and_sinks_are_slow_or_fail(rt: HostRuntime) -> Result<(), Fail> {
    check_rows_of(&rt, rt.alloc(), stream_rows())?;
    Ok(())
}

// What `check` writes of a script.
fn checked_text<R: Abort>(rt: &R, alloc: Global, script: &str) -> Result<MemSink, OutOfMemory> {
    let words = words_of(alloc, &["check"])?;
    let mut source = MemSource::new(alloc, script.as_bytes(), 100_000, WHOLE.failing)?;
    let mut sink = MemSink::new(alloc, 100, 100, WHOLE.failing)?;
    let words = words.as_slice();
    tool::<R, MainStore, _, _, _>(rt, alloc, words, &mut source, &mut sink, &NoGate);
    Ok(sink)
}

fn check_long<R: Abort>(rt: &R, alloc: Global, long: &LongScript) -> Result<(), OutOfMemory> {
    let script = script_of(alloc, long.parts)?;
    let sink = checked_text(rt, alloc, script.as_str())?;
    assert!(rt;
        sink.bytes() == long.text.as_bytes(),
        "{}: the text",
        long.name
    );
    Ok(())
}

#[test]
fn limits_are_kept(rt: HostRuntime) -> Result<(), Fail> {
    for long in long_scripts() {
        check_long(&rt, rt.alloc(), long)?;
    }
    Ok(())
}

#[test]
fn the_deepest_script_is_read(rt: HostRuntime) -> Result<(), Fail> {
    let script = deepest_script(rt.alloc())?;
    let sink = checked_text(&rt, rt.alloc(), script.as_str())?;
    assert!(rt; sink.bytes() == "script ok\n".as_bytes());
    Ok(())
}

fn check_long_run<R: Abort>(rt: &R, alloc: Global, long: &LongRun) -> Result<(), OutOfMemory> {
    let words = words_of(alloc, long.words)?;
    let text = script_of(alloc, long.text)?;
    let mut source = MemSource::new(alloc, long.script.as_bytes(), 100, WHOLE.failing)?;
    let mut sink = MemSink::new(alloc, 1_200_000, 1_000_000, WHOLE.failing)?;
    let words = words.as_slice();
    let report = tool::<R, MainStore, _, _, _>(rt, alloc, words, &mut source, &mut sink, &NoGate);
    assert_eq!(rt; report.status, Status::Faulted, "{}: the status", long.name);
    assert!(rt; sink.bytes() == text.as_bytes(), "{}: the text", long.name);
    Ok(())
}

#[test]
fn a_behaviour_prints_1_048_576_bytes(rt: HostRuntime) -> Result<(), Fail> {
    check_long_run(&rt, rt.alloc(), full_output())?;
    Ok(())
}

#[test]
fn a_behaviour_makes_a_million_objects(rt: HostRuntime) -> Result<(), Fail> {
    check_long_run(&rt, rt.alloc(), most_objects())?;
    Ok(())
}

// The status of `run` on so many spaces.
fn status_of_spaces<R: Abort>(rt: &R, alloc: Global, len: usize) -> Result<Status, OutOfMemory> {
    let words = words_of(alloc, &["run"])?;
    let script = vec![in alloc; b' '; len]?;
    let mut source = MemSource::new(alloc, script.as_slice(), 100_000, WHOLE.failing)?;
    let mut sink = MemSink::new(alloc, 100, 100, WHOLE.failing)?;
    let words = words.as_slice();
    let report = tool::<R, MainStore, _, _, _>(rt, alloc, words, &mut source, &mut sink, &NoGate);
    if report.status == Status::ScriptTooLong {
        assert!(rt; sink.bytes().is_empty());
    }
    Ok(report.status)
}

#[test]
fn the_longest_script_has_1_048_576_bytes(rt: HostRuntime) -> Result<(), Fail> {
    let longest = status_of_spaces(&rt, rt.alloc(), 1_048_576)?;
    assert_eq!(rt; longest, Status::Done);
    let longer = status_of_spaces(&rt, rt.alloc(), 1_048_577)?;
    assert_eq!(rt; longer, Status::ScriptTooLong);
    Ok(())
}
