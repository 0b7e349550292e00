// Hooks, by the sources of their scripts.

use cov_event::Ask;
use cov_hook::{Hook, HookError};
use cov_outside::MemShelf;
use cov_run::load;
use py_value::NoMemory;
use std::alloc::Global;
use std::test::Fail;

/// Opens the function `label` of a script of this source.
fn opened(alloc: Global, source: &str) -> Result<Result<Hook, HookError>, Fail> {
    let mut files = Vec::new(alloc);
    let bytes = Vec::from_slice(alloc, source.as_bytes())?;
    files.push((String::from_str(alloc, "hk.py")?, bytes))?;
    let mut shelf = MemShelf::new(alloc, files, Vec::new(alloc));
    match load(alloc, "hk.py", "__main__", &mut shelf) {
        Ok(loaded) => Ok(Hook::open(alloc, loaded.programs, "label")),
        Err(_) => Ok(Err(HookError::NoMemory)),
    }
}

/// A line for each of these functions of `m`: its label, or `-` for none.
fn labels_of(alloc: Global, hook: &mut Hook, functions: &[&str]) -> Result<String, NoMemory> {
    let mut lines = String::new(alloc);
    for function in functions {
        match hook.ask(alloc, "m", function)? {
            Some(text) => lines.push_str(text.as_str())?,
            None => lines.push('-')?,
        }
        lines.push('\n')?;
    }
    Ok(lines)
}

/// The source of a script, functions in the order of their calls, and the labels.
static ASKED: [(&str, &str, &[&str], &str); 11] = [
    (
        "It counts in a global, prints, and raises on the third call",
        "count = 0\ndef label(module, function):\n    global count\n    count += 1\n    \
         print(count)\n    if count == 3:\n        raise ValueError(\"no\")\n    \
         return \"h\" + str(count)\n",
        &["a", "b", "a", "b"],
        "h1\nh2\n-\n-\n",
    ),
    (
        "Module and function",
        "def label(module, function):\n    return module + \"/\" + function\n",
        &["a", "é"],
        "m/a\nm/é\n",
    ),
    (
        "A value that is no text",
        "def label(module, function):\n    if function == \"a\":\n        return 1\n    return \"t\"\n",
        &["a", "b", "a", "b"],
        "-\nt\n-\nt\n",
    ),
    (
        "The empty text",
        "def label(module, function):\n    return \"\"\n",
        &["a"],
        "\n",
    ),
    (
        "A body that raises",
        "def label(module, function):\n    return \"t\"\nraise KeyError\n",
        &["a"],
        "-\n",
    ),
    (
        "A body that exits",
        "import sys\ndef label(module, function):\n    return \"t\"\nsys.exit(0)\n",
        &["a"],
        "-\n",
    ),
    (
        "A body without an end",
        "def label(module, function):\n    return \"t\"\nwhile True:\n    pass\n",
        &["a"],
        "-\n",
    ),
    (
        "A call without an end",
        "def label(module, function):\n    while function == \"b\":\n        pass\n    return \"t\"\n",
        &["a", "b", "a"],
        "t\n-\n-\n",
    ),
    (
        "A call that exits",
        "import sys\ndef label(module, function):\n    if function == \"b\":\n        sys.exit(0)\n    \
         return \"t\"\n",
        &["a", "b", "a"],
        "t\n-\n-\n",
    ),
    (
        "No input",
        "def label(module, function):\n    try:\n        return input()\n    except EOFError:\n        \
         return \"end\"\n",
        &["a"],
        "end\n",
    ),
    (
        "The script's path in `sys.argv`",
        "import sys\ndef label(module, function):\n    return str(sys.argv)\n",
        &["a"],
        "['hk.py']\n",
    ),
];

#[test]
fn hooks_give_labels(rt: HostRuntime) -> Result<(), Fail> {
    let alloc = rt.alloc();
    for (title, source, functions, wanted) in &ASKED {
        match opened(alloc, *source)? {
            Ok(mut hook) => {
                let told = labels_of(alloc, &mut hook, *functions)?;
                assert_eq!(&rt; told.as_str(), *wanted, "{title}");
            }
            Err(_) => panic!(&rt; "{title}: it wasn't opened"),
        }
    }
    Ok(())
}

/// Sources of scripts that have no function `label`.
static WITHOUT: [(&str, &str); 4] = [
    ("Nothing", ""),
    (
        "Another function",
        "def labels(module, function):\n    return \"t\"\n",
    ),
    ("A variable", "label = 1\n"),
    (
        "A name that a function is bound to",
        "def f(m, g):\n    return \"t\"\nlabel = f\n",
    ),
];

#[test]
fn a_function_that_is_not_there(rt: HostRuntime) -> Result<(), Fail> {
    let alloc = rt.alloc();
    for (title, source) in &WITHOUT {
        match opened(alloc, *source)? {
            Ok(_) => panic!(&rt; "{title}: it was opened"),
            Err(error) => assert!(&rt; error == HookError::NoFunction, "{title}"),
        }
    }
    Ok(())
}
