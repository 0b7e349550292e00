//! A command of what was read.
ghost use Rattle.std.specs.Prelude.{◌≡◌, IfOk, Some, option_map};
ghost use Rattle.cov_words.specs.Plain.{reading_view, command_view, Makes};
ghost use Rattle.cov_words.specs.Reading.{command_read};
ghost use Rattle.cov_words.specs.declared.options.CommandName.TheVariants.{Arcs, Run, Combine, Report, Json, Lcov, Annotate, Erase, Script, Make, Suite, Select, Mutate};

use crate::NoMemory;
use crate::command::Command;
use crate::given::{files_in, hook_in, is_on, number_in, owned, steps_in, text_in};
use crate::operands::MOST_SIZE;
use crate::options::{CommandName, OptionName};
use crate::reading::Reading;
use crate::values::{Value, number_up_to, whole_number};
use std::alloc::Global;

/// A command of what was read, where nothing is missing.
pub(crate) fn command_of(alloc: Global, reading: &Reading<'_>) -> Result<Option<Command>, NoMemory>
    ensures { IfOk result (λ made.
        option_map command_view made ≡ command_read (Some (reading_view reading.now))) }
{
    if reading.awaiting.is_some() {
        return Ok(None);
    }
    made_of(
        alloc,
        reading.command,
        reading.given.as_slice(),
        reading.operands.as_slice(),
    )
}

fn made_of(
    alloc: Global,
    command: CommandName,
    given: &[(OptionName, Value<'_>)],
    operands: &[&str],
) -> Result<Option<Command>, NoMemory>
    ensures { IfOk result (λ made. Makes command given.now operands.now made) }
{
    match command {
        CommandName::Arcs => arcs(alloc, given, operands),
        CommandName::Run => run(alloc, given, operands),
        CommandName::Combine => combine(alloc, given, operands),
        CommandName::Report => report(alloc, given, operands),
        CommandName::Json => json(alloc, given, operands),
        CommandName::Lcov => lcov(alloc, given, operands),
        CommandName::Annotate => annotate(alloc, given, operands),
        CommandName::Erase => erase(alloc, given, operands),
        CommandName::Script => script(alloc, given, operands),
        CommandName::Make => make(alloc, given, operands),
        CommandName::Suite => suite(alloc, given, operands),
        CommandName::Select => select(alloc, given, operands),
        CommandName::Mutate => mutate(alloc, given, operands),
    }
}

fn arcs(
    alloc: Global,
    given: &[(OptionName, Value<'_>)],
    operands: &[&str],
) -> Result<Option<Command>, NoMemory>
    ensures { IfOk result (λ made. Makes Arcs given.now operands.now made) }
{
    let Some((script, args)) = operands.split_first() else {
        return Ok(None);
    };
    Ok(Some(Command::Arcs {
        budget: steps_in(given),
        script: String::from_str(alloc, script)?,
        args: owned(alloc, args)?,
    }))
}

fn run(
    alloc: Global,
    given: &[(OptionName, Value<'_>)],
    operands: &[&str],
) -> Result<Option<Command>, NoMemory>
    ensures { IfOk result (λ made. Makes Run given.now operands.now made) }
{
    let Some((script, args)) = operands.split_first() else {
        return Ok(None);
    };
    let (data_file, rcfile) = files_in(alloc, given)?;
    Ok(Some(Command::Run {
        branch: is_on(OptionName::Branch, given),
        append: is_on(OptionName::Append, given),
        context: text_in(alloc, OptionName::Context, given)?,
        budget: steps_in(given),
        hook: hook_in(alloc, given)?,
        data_file,
        rcfile,
        script: String::from_str(alloc, script)?,
        args: owned(alloc, args)?,
    }))
}

fn combine(
    alloc: Global,
    given: &[(OptionName, Value<'_>)],
    operands: &[&str],
) -> Result<Option<Command>, NoMemory>
    ensures { IfOk result (λ made. Makes Combine given.now operands.now made) }
{
    let (data_file, rcfile) = files_in(alloc, given)?;
    Ok(Some(Command::Combine {
        append: is_on(OptionName::Append, given),
        keep: is_on(OptionName::Keep, given),
        data_file,
        rcfile,
        names: owned(alloc, operands)?,
    }))
}

fn report(
    alloc: Global,
    given: &[(OptionName, Value<'_>)],
    operands: &[&str],
) -> Result<Option<Command>, NoMemory>
    ensures { IfOk result (λ made. Makes Report given.now operands.now made) }
{
    let (data_file, rcfile) = files_in(alloc, given)?;
    Ok(Some(Command::Report {
        show_missing: is_on(OptionName::ShowMissing, given),
        fail_under: number_in(OptionName::FailUnder, given),
        data_file,
        rcfile,
    }))
}

fn json(
    alloc: Global,
    given: &[(OptionName, Value<'_>)],
    operands: &[&str],
) -> Result<Option<Command>, NoMemory>
    ensures { IfOk result (λ made. Makes Json given.now operands.now made) }
{
    let (data_file, rcfile) = files_in(alloc, given)?;
    Ok(Some(Command::Json {
        name: text_in(alloc, OptionName::Output, given)?,
        fail_under: number_in(OptionName::FailUnder, given),
        data_file,
        rcfile,
    }))
}

fn lcov(
    alloc: Global,
    given: &[(OptionName, Value<'_>)],
    operands: &[&str],
) -> Result<Option<Command>, NoMemory>
    ensures { IfOk result (λ made. Makes Lcov given.now operands.now made) }
{
    let (data_file, rcfile) = files_in(alloc, given)?;
    Ok(Some(Command::Lcov {
        name: text_in(alloc, OptionName::Output, given)?,
        fail_under: number_in(OptionName::FailUnder, given),
        data_file,
        rcfile,
    }))
}

fn annotate(
    alloc: Global,
    given: &[(OptionName, Value<'_>)],
    operands: &[&str],
) -> Result<Option<Command>, NoMemory>
    ensures { IfOk result (λ made. Makes Annotate given.now operands.now made) }
{
    let Some(file) = operands.first() else {
        return Ok(None);
    };
    let (data_file, rcfile) = files_in(alloc, given)?;
    Ok(Some(Command::Annotate {
        data_file,
        rcfile,
        file: String::from_str(alloc, file)?,
    }))
}

fn erase(
    alloc: Global,
    given: &[(OptionName, Value<'_>)],
    operands: &[&str],
) -> Result<Option<Command>, NoMemory>
    ensures { IfOk result (λ made. Makes Erase given.now operands.now made) }
{
    let (data_file, rcfile) = files_in(alloc, given)?;
    Ok(Some(Command::Erase { data_file, rcfile }))
}

fn script(
    alloc: Global,
    given: &[(OptionName, Value<'_>)],
    operands: &[&str],
) -> Result<Option<Command>, NoMemory>
    ensures { IfOk result (λ made. Makes Script given.now operands.now made) }
{
    let Some(file) = operands.first() else {
        return Ok(None);
    };
    Ok(Some(Command::Script {
        file: String::from_str(alloc, file)?,
    }))
}

fn make(
    alloc: Global,
    given: &[(OptionName, Value<'_>)],
    operands: &[&str],
) -> Result<Option<Command>, NoMemory>
    ensures { IfOk result (λ made. Makes Make given.now operands.now made) }
{
    if operands.len() < 2 {
        return Ok(None);
    }
    let Some(seed) = whole_number(operands[0]) else {
        return Ok(None);
    };
    let Some(size) = number_up_to(MOST_SIZE, operands[1]) else {
        return Ok(None);
    };
    Ok(Some(Command::Make { seed, size }))
}

fn suite(
    alloc: Global,
    given: &[(OptionName, Value<'_>)],
    operands: &[&str],
) -> Result<Option<Command>, NoMemory>
    ensures { IfOk result (λ made. Makes Suite given.now operands.now made) }
{
    let Some(file) = operands.first() else {
        return Ok(None);
    };
    let (data_file, rcfile) = files_in(alloc, given)?;
    Ok(Some(Command::Suite {
        branch: is_on(OptionName::Branch, given),
        budget: steps_in(given),
        data_file,
        rcfile,
        file: String::from_str(alloc, file)?,
    }))
}

fn select(
    alloc: Global,
    given: &[(OptionName, Value<'_>)],
    operands: &[&str],
) -> Result<Option<Command>, NoMemory>
    ensures { IfOk result (λ made. Makes Select given.now operands.now made) }
{
    if operands.len() < 2 {
        return Ok(None);
    }
    Ok(Some(Command::Select {
        budget: steps_in(given),
        old: String::from_str(alloc, operands[0])?,
        new: String::from_str(alloc, operands[1])?,
    }))
}

fn mutate(
    alloc: Global,
    given: &[(OptionName, Value<'_>)],
    operands: &[&str],
) -> Result<Option<Command>, NoMemory>
    ensures { IfOk result (λ made. Makes Mutate given.now operands.now made) }
{
    let Some(file) = operands.first() else {
        return Ok(None);
    };
    Ok(Some(Command::Mutate {
        budget: steps_in(given),
        file: String::from_str(alloc, file)?,
    }))
}
