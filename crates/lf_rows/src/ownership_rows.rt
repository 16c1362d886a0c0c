use crate::row::{FAULTED, RAN, Row};

// Scripts with regions.
static ROWS: [Row; 18] = [
    Row {
        name: "moved_graph",
        script: "r = Region()\nx = {}\ny = {}\nx.y = y\nr.x = x\nprint(borrowed(r), refs(y), owner(y))\n",
        text: "[0]\n3 2 region\ndone 1 behaviours 0 faults\n",
        ..RAN
    },
    Row {
        name: "self_edge",
        script: "r = Region()\nr.f = r\nprint(borrowed(r), refs(r))\n",
        text: "[0]\n1 2\ndone 1 behaviours 0 faults\n",
        ..RAN
    },
    Row {
        name: "second_owner",
        script: "r = Region()\ns = Region()\nr.a = s\nr.b = s\n",
        text: "[0]\nfault F6 SecondOwner at line 4\ndone 1 behaviours 1 faults\n",
        ..FAULTED
    },
    Row {
        name: "owner_cycle",
        script: "r = Region()\ns = Region()\nr.s = s\ns.r = r\n",
        text: "[0]\nfault F7 Cycle at line 4\ndone 1 behaviours 1 faults\n",
        ..FAULTED
    },
    Row {
        name: "interior",
        script: "r = Region()\ns = Region()\nx = {}\ns.x = x\nr.x = x\n",
        text: "[0]\nfault F5 Interior at line 5\ndone 1 behaviours 1 faults\n",
        ..FAULTED
    },
    Row {
        name: "replaced_owner",
        script: "r = Region()\ns = Region()\nr.c = s\nx = {}\nx.s = s\nr.c = x\nprint(open_children(r))\n",
        text: "[0]\n1\ndone 1 behaviours 0 faults\n",
        ..RAN
    },
    Row {
        name: "refused_unchanged",
        script: "r = Region()\ns = Region()\nx = {}\nx.a = s\nx.b = s\nr.x = x\n",
        text: "[0]\nfault F6 SecondOwner at line 6\ndone 1 behaviours 1 faults\n",
        ..FAULTED
    },
    Row {
        name: "a region is open by a second name",
        script: "r = Region()\nprint(is_closed(r))\nq = r\nprint(is_closed(r))\n",
        text: "[0]\nTrue\nFalse\ndone 1 behaviours 0 faults\n",
        ..RAN
    },
    Row {
        name: "a cycle of local objects lives on",
        script: "r = Region()\na = {}\nb = {}\na.o = b\nb.o = a\na.r = r\ndrop a\ndrop b\nprint(borrowed(r))\n",
        text: "[0]\n2\ndone 1 behaviours 0 faults\n",
        ..RAN
    },
    Row {
        name: "a child that is borrowed lives on",
        script: "r = Region()\ns = Region()\nx = {}\ns.x = x\nr.s = s\ndrop s\ndrop r\nprint(owner(x), refs(x))\n",
        text: "[0]\nregion 2\ndone 1 behaviours 0 faults\n",
        ..RAN
    },
    Row {
        name: "orphaned_child, to its cown",
        script: "r = Region()\ns = Region()\nr.s = s\ndrop r\nprint(open_children(s), refs(s))\n",
        text: "[0]\n0 1\ndone 1 behaviours 0 faults\n",
        ..RAN
    },
    Row {
        name: "a second owner before the first goes",
        script: "r = Region()\ns = Region()\nx = {}\nx.s = s\nr.a = x\ndrop x\nr.a = s\n",
        text: "[0]\nfault F6 SecondOwner at line 7\ndone 1 behaviours 1 faults\n",
        ..FAULTED
    },
    Row {
        name: "a second owner after the first went",
        script: "r = Region()\ns = Region()\nx = {}\nx.s = s\nr.a = x\ndrop x\nr.a = 0\nr.a = s\nprint(open_children(r))\n",
        text: "[0]\n1\ndone 1 behaviours 0 faults\n",
        ..RAN
    },
    Row {
        name: "operands count",
        script: "x = {}\nprint(x, refs(x))\nx.n = refs(x)\nprint(x.n)\n",
        text: "[0]\nobject 0.1 2\n2\ndone 1 behaviours 0 faults\n",
        ..RAN
    },
    Row {
        name: "an operand opens its region",
        script: "r = Region()\nprint(r, is_closed(r))\n",
        text: "[0]\nobject 0.1 False\ndone 1 behaviours 0 faults\n",
        ..RAN
    },
    Row {
        name: "owners",
        script: "x = {}\nr = Region()\ny = 1\nprint(owner(x), owner(r), owner(y))\n",
        text: "[0]\nlocal region value\ndone 1 behaviours 0 faults\n",
        ..RAN
    },
    Row {
        name: "examples: regions",
        script: "# A list moves into a region with all that it reaches.\nr = Region()\nfirst = {}\nsecond = {}\nfirst.next = second\nprint(owner(second), borrowed(r))\nr.list = first\nprint(owner(second), borrowed(r))\ndrop first\ndrop second\nprint(is_closed(r), r.list.next)\n",
        text: "[0]\nlocal 1\nregion 3\nTrue object 0.3\ndone 1 behaviours 0 faults\n",
        ..RAN
    },
    Row {
        name: "examples: second_owner",
        script: "# A region has one owner at most.\nr = Region()\ns = Region()\nr.first = s\nprint(open_children(r))\nr.second = s\n",
        text: "[0]\n1\nfault F6 SecondOwner at line 6\ndone 1 behaviours 1 faults\n",
        ..FAULTED
    },
];

/// The scripts with regions.
pub fn ownership_rows() -> &'static [Row] {
    &ROWS
}
