use crate::row::{FAULTED, RAN, Row};

// Scripts that freeze, and that merge, dissolve and close regions.
static ROWS: [Row; 41] = [
    Row {
        name: "merges",
        script: "b = Region()\na = Region()\nb.a = a\nmerge(a, b)\nprint(owner(b), refs(a), borrowed(a))\n",
        text: "[0]\nregion 2 2\ndone 1 behaviours 0 faults\n",
        ..RAN
    },
    Row {
        name: "a region is merged into one far below it",
        script: "b = Region()\nq = Region()\na = Region()\nb.q = q\nq.a = a\nmerge(a, b)\n",
        text: "[0]\nfault F7 Cycle at line 6\ndone 1 behaviours 1 faults\n",
        ..FAULTED
    },
    Row {
        name: "a region with another owner is merged",
        script: "a = Region()\nb = Region()\nq = Region()\nq.b = b\nmerge(a, b)\n",
        text: "[0]\nfault F13 Owned at line 5\ndone 1 behaviours 1 faults\n",
        ..FAULTED
    },
    Row {
        name: "a region is merged into its owner",
        script: "a = Region()\nb = Region()\nx = {}\nb.x = x\na.b = b\ndrop x\nmerge(a, b)\ny = a.b.x\nprint(owner(y), open_children(a), refs(y), refs(b), borrowed(a))\n",
        text: "[0]\nregion 0 2 2 3\ndone 1 behaviours 0 faults\n",
        ..RAN
    },
    Row {
        name: "a region is merged into itself",
        script: "r = Region()\nq = Region()\nq.r = r\nmerge(r, r)\nprint(owner(r), borrowed(r), open_children(q))\n",
        text: "[0]\nregion 1 1\ndone 1 behaviours 0 faults\n",
        ..RAN
    },
    Row {
        name: "merge gives the bridge that stays",
        script: "a = Region()\nb = Region()\nprint(merge(a, b), owner(b), borrowed(a))\n",
        text: "[0]\nobject 0.1 region 3\ndone 1 behaviours 0 faults\n",
        ..RAN
    },
    Row {
        name: "a bridge that nothing names goes with its merge",
        script: "a = Region()\nmerge(a, Region())\nprint(borrowed(a), is_closed(a))\n",
        text: "[0]\n1 True\ndone 1 behaviours 0 faults\n",
        ..RAN
    },
    Row {
        name: "merge into no bridge",
        script: "a = Region()\nx = {}\nmerge(x, a)\n",
        text: "[0]\nfault F12 NotBridge at line 3\ndone 1 behaviours 1 faults\n",
        ..FAULTED
    },
    Row {
        name: "merge of no bridge",
        script: "a = Region()\nx = {}\na.x = x\nmerge(a, x)\n",
        text: "[0]\nfault F12 NotBridge at line 4\ndone 1 behaviours 1 faults\n",
        ..FAULTED
    },
    Row {
        name: "merge of no bridge that is judged ahead of owners",
        script: "a = Region()\nb = Region()\na.b = b\nmerge(1, b)\n",
        text: "[0]\nfault F12 NotBridge at line 4\ndone 1 behaviours 1 faults\n",
        ..FAULTED
    },
    Row {
        name: "an old bridge is none any more",
        script: "a = Region()\nb = Region()\nmerge(a, b)\ndissolve(b)\n",
        text: "[0]\nfault F12 NotBridge at line 4\ndone 1 behaviours 1 faults\n",
        ..FAULTED
    },
    Row {
        name: "dissolves",
        script: "r = Region()\nx = {}\nr.x = x\ndissolve(r)\nprint(owner(r), owner(x), refs(x))\n",
        text: "[0]\nlocal local 2\ndone 1 behaviours 0 faults\n",
        ..RAN
    },
    Row {
        name: "a region that a dissolved one owned is borrowed",
        script: "r = Region()\ns = Region()\nr.s = s\ndissolve(r)\nprint(owner(r), owner(s), borrowed(s), refs(s))\n",
        text: "[0]\nlocal region 2 2\ndone 1 behaviours 0 faults\n",
        ..RAN
    },
    Row {
        name: "dissolve gives its object, and a cycle of its rows lives on",
        script: "r = Region()\nr.me = r\nx = dissolve(r)\ndrop r\nprint(x, owner(x), refs(x))\n",
        text: "[0]\nobject 0.1 local 3\ndone 1 behaviours 0 faults\n",
        ..RAN
    },
    Row {
        name: "a region that has an owner is dissolved",
        script: "r = Region()\ns = Region()\nr.s = s\ndissolve(s)\n",
        text: "[0]\nfault F13 Owned at line 4\ndone 1 behaviours 1 faults\n",
        ..FAULTED
    },
    Row {
        name: "dissolve of no bridge",
        script: "x = {}\ndissolve(x)\n",
        text: "[0]\nfault F12 NotBridge at line 2\ndone 1 behaviours 1 faults\n",
        ..FAULTED
    },
    Row {
        name: "dissolve of a plain value",
        script: "dissolve(\"r\")\n",
        text: "[0]\nfault F12 NotBridge at line 1\ndone 1 behaviours 1 faults\n",
        ..FAULTED
    },
    Row {
        name: "freeze_inner",
        script: "r = Region()\nx = {}\nr.x = x\nfreeze(x)\nprint(owner(x), borrowed(r))\n",
        text: "[0]\nfrozen 1\ndone 1 behaviours 0 faults\n",
        ..RAN
    },
    Row {
        name: "freeze_region",
        script: "r = Region()\ns = Region()\nx = {}\ns.x = x\ns.x = 0\nr.s = s\nfreeze(s)\nprint(owner(x), owner(s), open_children(r), is_closed(r))\n",
        text: "[0]\nfrozen frozen 0 True\ndone 1 behaviours 0 faults\n",
        ..RAN
    },
    Row {
        name: "a frozen object is written",
        script: "x = {}\nfreeze(x)\nx.f = 1\n",
        text: "[0]\nfault F4 FrozenWrite at line 3\ndone 1 behaviours 1 faults\n",
        ..FAULTED
    },
    Row {
        name: "a field of a frozen object is taken",
        script: "x = {}\nx.f = 1\nfreeze(x)\ny = move x.f\n",
        text: "[0]\nfault F4 FrozenWrite at line 4\ndone 1 behaviours 1 faults\n",
        ..FAULTED
    },
    Row {
        name: "frozen fields are read",
        script: "x = {}\ny = {}\nx.y = y\ny.x = x\ny.n = 5\ndrop y\nprint(freeze(x))\nprint(x.y.n, x.y.x == x)\ny = x.y\nprint(owner(y))\n",
        text: "[0]\nobject 0.1\n5 True\nfrozen\ndone 1 behaviours 0 faults\n",
        ..RAN
    },
    Row {
        name: "a field that a frozen object doesn't have",
        script: "x = {}\nfreeze(x)\nprint(x.f)\n",
        text: "[0]\nfault F3 NoField at line 3\ndone 1 behaviours 1 faults\n",
        ..FAULTED
    },
    Row {
        name: "the count of a frozen object",
        script: "x = {}\nfreeze(x)\nprint(refs(x))\n",
        text: "[0]\nfault F15 Kind at line 3\ndone 1 behaviours 1 faults\n",
        ..FAULTED
    },
    Row {
        name: "a frozen object goes into a region, and into two",
        script: "r = Region()\ns = Region()\nx = {}\nx.n = 1\nfreeze(x)\nr.x = x\ns.x = x\nprint(r.x.n + s.x.n, borrowed(r), owner(x))\n",
        text: "[0]\n2 1 frozen\ndone 1 behaviours 0 faults\n",
        ..RAN
    },
    Row {
        name: "a region that a freeze leaves without a name goes",
        script: "r = Region()\nx = {}\nr.x = x\ns = Region()\nx.s = s\ndrop s\nfreeze(x)\ny = x.s\nprint(owner(y), borrowed(r))\n",
        text: "[0]\nfrozen 1\ndone 1 behaviours 0 faults\n",
        ..RAN
    },
    Row {
        name: "freeze of what is frozen, and of a plain value",
        script: "x = {}\nfreeze(x)\nprint(freeze(x), freeze(1), owner(x))\n",
        text: "[0]\nobject 0.1 1 frozen\ndone 1 behaviours 0 faults\n",
        ..RAN
    },
    Row {
        name: "a frozen object is no bridge",
        script: "r = Region()\nfreeze(r)\ndissolve(r)\n",
        text: "[0]\nfault F12 NotBridge at line 3\ndone 1 behaviours 1 faults\n",
        ..FAULTED
    },
    Row {
        name: "rows that a region keeps refer to those that froze",
        script: "r = Region()\nx = {}\nr.x = x\nr.y = x\nx.n = 3\nfreeze(x)\ndrop x\nprint(r.x.n, r.y.n, borrowed(r), refs(r))\n",
        text: "[0]\n3 3 1 1\ndone 1 behaviours 0 faults\n",
        ..RAN
    },
    Row {
        name: "a region is closed",
        script: "r = Region()\nx = {}\nr.x = x\nq = r\nclose(r)\nprint(q, x, borrowed(r), is_closed(r))\n",
        text: "[0]\nNone None 1 True\ndone 1 behaviours 0 faults\n",
        ..RAN
    },
    Row {
        name: "close gives None, and shuts operands",
        script: "r = Region()\ny = {}\nr.y = y\nprint(y, close(r), y)\n",
        text: "[0]\nNone None None\ndone 1 behaviours 0 faults\n",
        ..RAN
    },
    Row {
        name: "a close shuts what leads below the region, in fields of local objects too",
        script: "r = Region()\ns = Region()\nr.s = s\ny = {}\ns.y = y\nl = {}\nl.s = s\nl.y = y\nl.r = r\nclose(r)\nprint(s, y, l.s, l.y, l.r, borrowed(r), open_children(r), is_closed(r))\n",
        text: "[0]\nNone None None None None 1 0 True\ndone 1 behaviours 0 faults\n",
        ..RAN
    },
    Row {
        name: "a close shuts the variables of other frames",
        script: "def shut(b):\n    close(b)\n    return b\n\nr = Region()\nx = {}\nr.x = x\nb = shut(r)\nprint(r, b, x, borrowed(b))\n",
        text: "[0]\nNone object 0.1 None 2\ndone 1 behaviours 0 faults\n",
        ..RAN
    },
    Row {
        name: "an inner object that a close lets loose goes",
        script: "r = Region()\nx = {}\nz = {}\nr.x = x\nr.z = z\nx.z = z\nr.x = 0\nprint(refs(x), refs(z))\nclose(r)\nz = r.z\nprint(x, refs(z), borrowed(r))\n",
        text: "[0]\n1 3\nNone 2 2\ndone 1 behaviours 0 faults\n",
        ..RAN
    },
    Row {
        name: "a close leaves other regions open",
        script: "r = Region()\ns = Region()\nx = {}\ns.x = x\nclose(r)\nprint(owner(x), refs(s), borrowed(s))\n",
        text: "[0]\nregion 1 2\ndone 1 behaviours 0 faults\n",
        ..RAN
    },
    Row {
        name: "a close leaves the owner open",
        script: "r = Region()\ns = Region()\nr.s = s\nclose(s)\nprint(borrowed(r), borrowed(s), open_children(r), is_closed(s), is_closed(r))\n",
        text: "[0]\n1 1 1 True False\ndone 1 behaviours 0 faults\n",
        ..RAN
    },
    Row {
        name: "a close leaves an unset variable unset",
        script: "r = Region()\nx = {}\nr.x = x\ndrop x\nclose(r)\nprint(x)\n",
        text: "[0]\nfault F1 Unset at line 6\ndone 1 behaviours 1 faults\n",
        ..FAULTED
    },
    Row {
        name: "close of an unset variable",
        script: "r = Region()\ndrop r\nclose(r)\n",
        text: "[0]\nfault F1 Unset at line 3\ndone 1 behaviours 1 faults\n",
        ..FAULTED
    },
    Row {
        name: "close of a local object",
        script: "x = {}\nclose(x)\n",
        text: "[0]\nfault F12 NotBridge at line 2\ndone 1 behaviours 1 faults\n",
        ..FAULTED
    },
    Row {
        name: "close of an inner object",
        script: "r = Region()\nx = {}\nr.x = x\nclose(x)\n",
        text: "[0]\nfault F12 NotBridge at line 4\ndone 1 behaviours 1 faults\n",
        ..FAULTED
    },
    Row {
        name: "close of a plain value",
        script: "x = 1\nclose(x)\n",
        text: "[0]\nfault F12 NotBridge at line 2\ndone 1 behaviours 1 faults\n",
        ..FAULTED
    },
];

/// The scripts that freeze, and that merge, dissolve and close regions.
pub fn transfer_rows() -> &'static [Row] {
    &ROWS
}
