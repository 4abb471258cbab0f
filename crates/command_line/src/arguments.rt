//! The arguments of commands, each of one of a few shapes, and what `clap` is told of them.

ghost use Rattle.std.specs.Prelude.{◌≡◌, IfOk, false, fold, map, pos};
ghost use Rattle.clap.specs.Words.{App, new_app, rule_of, with_rule};
ghost use Rattle.clap.specs.declared.builder.value_parser.ValueParser.TheVariants.{Signed};
ghost use Rattle.command_line.specs.Commands.{IsProgramCommand, argument_rule};

use clap::builder::ValueParser;
use clap::{Arg, ArgAction, Command, value_parser};
use std::alloc::{AllocError, Global};

/// How an argument is given.
#[derive(Clone, Copy)]
pub(crate) enum Shape {
    // A word that has to be there.
    Word,
    // A word that may be left out.
    FreeWord,
    // A word that has to be there: the number of a fault, 1 to 55.
    Known,
    // An option with a number of 1 to 16, which is 1 if it is left out.
    Number,
    // An option with a value, which may be left out.
    Value,
    // The same, and `-o` is short for it.
    Output,
    // An option with a word, which is `text` if it is left out.
    Choice,
    // An option with no value, which may be left out.
    Flag,
}

/// An argument: how it is given, its name, what help calls its value (nothing for a flag), and what it is for.
#[derive(Clone, Copy)]
pub(crate) struct Argument {
    pub(crate) shape: Shape,
    pub(crate) id: &'static str,
    pub(crate) value: &'static str,
    pub(crate) help: &'static str,
}

/// The command with these arguments behind those that it has.
pub(crate) fn with_arguments<'a>(
    alloc: Global,
    mut command: Command<'a>,
    arguments: &[Argument],
) -> Result<Command<'a>, AllocError>
    ensures { (app : App) → IsProgramCommand app command.entry → IfOk result (IsProgramCommand
        (fold with_rule app (map argument_rule arguments.now))) }
{
    for done in 0..arguments.len() {
        let argument = arguments[done];
        command = command.arg(arg(alloc, argument))?;
    }
    Ok(command)
}

/// A command of this name: what it does, an example, and its arguments.
pub(crate) fn command_of<'a>(
    alloc: Global,
    name: &'a str,
    about: &'a str,
    example: &'a str,
    arguments: &[Argument],
) -> Result<Command<'a>, AllocError>
    ensures { IfOk result (IsProgramCommand (fold with_rule (new_app name.entry.now)
        (map argument_rule arguments.now))) }
{
    let command = Command::new(alloc, name).about(about).after_help(example);
    with_arguments(alloc, command, arguments)
}

fn arg<'a>(alloc: Global, argument: Argument) -> Arg<'a>
    ensures rule { rule_of result ≡ argument_rule argument }
    ensures local { result.global ≡ false }
{
    let Argument {
        shape,
        id,
        value,
        help,
    } = argument;
    let plain = Arg::new(alloc, id).help(help);
    match shape {
        Shape::Word => plain.value_name(value).required(true),
        Shape::FreeWord => plain.value_name(value),
        Shape::Known => plain
            .value_name(value)
            .required(true)
            .value_parser(known_number()),
        Shape::Number => plain
            .long(id)
            .value_name(value)
            .value_parser(small_number())
            .default_value("1"),
        Shape::Value => plain.long(id).value_name(value),
        Shape::Output => plain.long(id).value_name(value).short('o'),
        Shape::Choice => plain.long(id).value_name(value).default_value("text"),
        Shape::Flag => plain.long(id).action(ArgAction::SetTrue),
    }
}

// A number of 1 to 16.
fn small_number<'a>() -> ValueParser<'a>
    ensures { result ≡ Signed (pos 1) (pos 16) }
{
    value_parser!(u8).range(1..=16)
}

// The number of a fault: 1 to 55.
fn known_number<'a>() -> ValueParser<'a>
    ensures { result ≡ Signed (pos 1) (pos 55) }
{
    value_parser!(u8).range(1..=55)
}
