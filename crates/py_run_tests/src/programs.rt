// Programs from their sources.

use py_code::{Code, Program, Programs};
use py_compile_module::compile;
use py_parse::parse;
use py_scope::check;
use py_token::{LINE_LIMIT, count_lines, tokens};
use std::alloc::Global;
use std::test::Fail;

/// The script and the other modules, each by its name and its source.
pub(crate) fn programs_of(
    alloc: Global,
    script: &str,
    others: &[(&str, &str)],
) -> Result<Programs, Fail> {
    let mut modules = Vec::new(alloc);
    modules.push(program_of(alloc, "__main__", script)?)?;
    for other in others {
        modules.push(program_of(alloc, other.0, other.1)?)?;
    }
    Ok(Programs { modules })
}

fn program_of(alloc: Global, name: &str, source: &str) -> Result<Program, Fail> {
    let code = code_of(alloc, source)?;
    let path = format!(in alloc; "{name}.py")?;
    let name = String::from_str(alloc, name)?;
    Ok(Program { name, path, code })
}

/// The code of a source of at most 65,535 lines.
fn code_of(alloc: Global, source: &str) -> Result<Code, Fail> {
    if count_lines(source) > LINE_LIMIT {
        return Err(Fail::new("too many lines"));
    }
    let tokens = tokens(alloc, source)?;
    let module = parse(alloc, &tokens)?;
    let scopes = check(alloc, &module)?;
    Ok(compile(alloc, &module, &scopes)?)
}
