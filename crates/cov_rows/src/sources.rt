//! Sources that several tables run.

pub(crate) const FIRST_RUN: &str = "x = 1\nif x:\n    print(x)\nelse:\n    print(0)\n";

pub(crate) const NUMBERS: &str = "x = 0\nif x:\n    print(x)\n";

pub(crate) const ONE_LINE_LOOP: &str = "n = 3\nwhile n: n = n - 1\n";

pub(crate) const CALC: &str = "\
def div(a, b):
    if b == 0:
        return None
    return a // b

def unused(x):
    return x
";

pub(crate) const TEST_CALC: &str = "\
import calc

def test_div():
    assert calc.div(6, 3) == 2

if __name__ == \"__main__\":
    test_div()
    print(\"ok\")
";
