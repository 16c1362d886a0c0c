use crate::row::{Moves, RAN, Row};
use lf_app::Status;

// Sources and sinks that are slow or fail.
static ROWS: [Row; 8] = [
    Row {
        name: "slow_source",
        script: "x = {}\nx.f = 41 + 1\nprint(x.f)\n",
        source: Moves {
            most: 1,
            failing: &[],
        },
        text: "[0]\n42\ndone 1 behaviours 0 faults\n",
        ..RAN
    },
    Row {
        name: "a slow sink",
        script: "x = {}\nx.f = 41 + 1\nprint(x.f)\n",
        sink: Moves {
            most: 1,
            failing: &[],
        },
        text: "[0]\n42\ndone 1 behaviours 0 faults\n",
        ..RAN
    },
    Row {
        name: "slow_source, failing at its first call",
        script: "x = {}\nx.f = 41 + 1\nprint(x.f)\n",
        source: Moves {
            most: 7,
            failing: &[0],
        },
        status: Status::ReadFault,
        order: &[],
        ..RAN
    },
    Row {
        name: "a source that fails in mid-stream",
        script: "x = {}\nx.f = 41 + 1\nprint(x.f)\n",
        source: Moves {
            most: 7,
            failing: &[2],
        },
        status: Status::ReadFault,
        order: &[],
        ..RAN
    },
    Row {
        name: "a source that fails where its end would be",
        script: "x = {}\nx.f = 41 + 1\nprint(x.f)\n",
        source: Moves {
            most: 100,
            failing: &[1],
        },
        status: Status::ReadFault,
        order: &[],
        ..RAN
    },
    Row {
        name: "broken_streams",
        script: "x = {}\nx.f = 41 + 1\nprint(x.f)\n",
        sink: Moves {
            most: 4,
            failing: &[1],
        },
        text: "[0]\n",
        status: Status::WriteFault,
        ..RAN
    },
    Row {
        name: "a sink that fails at its first call",
        script: "x = {}\nx.f = 41 + 1\nprint(x.f)\n",
        sink: Moves {
            most: 4,
            failing: &[0],
        },
        status: Status::WriteFault,
        ..RAN
    },
    Row {
        name: "a sink that fails under a refusal",
        script: "y",
        sink: Moves {
            most: 4,
            failing: &[1],
        },
        text: "refu",
        status: Status::WriteFault,
        order: &[],
        ..RAN
    },
];

/// The calls over sources and sinks that are slow or fail.
pub fn stream_rows() -> &'static [Row] {
    &ROWS
}
