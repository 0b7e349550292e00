// Changes of a module that a test reaches, and others.

use crate::rows::{Row, first_wrong};
use std::test::Fail;

const ROWS: [Row; 6] = [
    Row {
        title: "Change that no test reaches",
        old: "def div(a, b):\n    if b == 0:\n        return None\n    return a // b\n\ndef unused(x):\n    return x\n",
        new: "def div(a, b):\n    if b == 0:\n        return None\n    return a // b\n\ndef unused(x):\n    return x + 1\n",
        before: "7",
        after: "7",
        fits: true,
    },
    Row {
        title: "Change that a test reaches",
        old: "def div(a, b):\n    if b == 0:\n        return None\n    return a // b\n\ndef unused(x):\n    return x\n",
        new: "def div(a, b):\n    if b == 0:\n        return None\n    return b // a\n\ndef unused(x):\n    return x\n",
        before: "4",
        after: "4",
        fits: true,
    },
    Row {
        title: "Empty line in front",
        old: "def div(a, b):\n    if b == 0:\n        return None\n    return a // b\n\ndef unused(x):\n    return x\n",
        new: "\ndef div(a, b):\n    if b == 0:\n        return None\n    return a // b\n\ndef unused(x):\n    return x\n",
        before: "1 2 3 4 6 7",
        after: "2 3 4 5 7 8",
        fits: true,
    },
    Row {
        title: "Other modules",
        old: "try:\n    import extra\nexcept ImportError:\n    pass\n\ndef test_a():\n    assert 1\n",
        new: "try:\n    import extra\nexcept ImportError:\n    pass\n\ndef test_a():\n    assert 1\n",
        before: "",
        after: "",
        fits: true,
    },
    Row {
        title: "Module without a mark",
        old: "",
        new: "x = 1\n",
        before: "",
        after: "1",
        fits: false,
    },
    Row {
        title: "Docstring that goes",
        old: "def test_a():\n    \"d\"\n",
        new: "def test_a():\n    print(2)\n",
        before: "1",
        after: "1 2",
        fits: true,
    },
];

#[test]
fn changed_lines_of_selected_rows(rt: HostRuntime) -> Result<(), Fail> {
    let wrong = first_wrong(rt.alloc(), &ROWS)?;
    assert_eq!(rt; wrong, "");
    Ok(())
}
