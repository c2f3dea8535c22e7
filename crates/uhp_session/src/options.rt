//! The options of a session: their lines and their values.

ghost use Rattle.std.specs.Prelude.{◌≡◌, ◌≤◌, [], ◌∷◌, ◌++◌, Some, codes, decimal, IfOk, OnOk};
ghost use Rattle.uhp_session.specs.Answers.{
  IsSetting,
  ended,
  number_in,
  option_line,
  setting_fault,
  setting_of,
  switch,
  text_of,
};

use crate::lines::Reply;
use crate::says::{close, say};
use hive_model::ReplyText;
use itoa::Buffer;
use move_text::read_number;
use std::alloc::{AllocError, Global};

/// An option, and a value of it.
#[derive(Clone, Copy, Debug, PartialEq, Eq)]
pub enum Setting {
    Table(u32),
    Workers(u32),
    Repetition(bool),
}

/// Why an option is not shown or set.
#[derive(Clone, Copy, Debug, PartialEq, Eq)]
pub enum SettingFault {
    NoSuchOption,
    OutOfRange,
}

/// Appends the line of an option: what comes before its value, the value, and what comes after it.
/// If memory runs out, an initial part of these was appended.
fn push_option(
    text: &mut ReplyText,
    start: &[u8],
    value: u32,
    rest: &[u8],
) -> Result<(), AllocError>
    ensures { OnOk result (text.new ≡ text.old ++ (start.now ++ (decimal value ++ rest.now))) }
{
    text.push_all(start)?;
    let mut buffer = Buffer::new();
    text.push_all(buffer.format(value).as_bytes())?;
    text.push_all(rest)
}

/// The number that stands for a switch.
fn switch(on: bool) -> u32
    ensures { result ≡ switch on }
{
    if on { 1 } else { 0 }
}

/// Appends the line of an option, without its end.
fn push_setting(text: &mut ReplyText, setting: Setting) -> Result<(), AllocError>
    ensures { OnOk result (text.new ≡ text.old ++ option_line setting) }
{
    match setting {
        Setting::Table(entries) => push_option(text, b"Table;int;", entries, b";65536;1;1048576"),
        Setting::Workers(workers) => push_option(text, b"Workers;int;", workers, b";1;1;16"),
        Setting::Repetition(on) => push_option(text, b"Repetition;int;", switch(on), b";0;0;1"),
    }
}

/// The line of an option, and `ok`.
pub(crate) fn tell_setting(alloc: Global, setting: Setting) -> Result<Reply, AllocError>
    ensures { IfOk result (λ r. text_of r
        ≡ Some (ended (option_line setting ∷ (codes "ok" ∷ [])))) }
{
    let mut text = ReplyText::new(alloc);
    push_setting(&mut text, setting)?;
    close(text)
}

/// Why an option is not shown or set, and `ok`.
pub(crate) fn refuse_setting(alloc: Global, fault: SettingFault) -> Result<Reply, AllocError>
    ensures { IfOk result (λ r. text_of r
        ≡ Some (ended (setting_fault fault ∷ (codes "ok" ∷ [])))) }
{
    match fault {
        SettingFault::NoSuchOption => say(alloc, b"err 9 no such option"),
        SettingFault::OutOfRange => say(alloc, b"err 9 value out of range"),
    }
}

/// The number that the text spells, if it is in this range.
fn number_in(text: &[u8], least: u32, most: u32) -> Result<u32, SettingFault>
    ensures value { result ≡ number_in text.now least most }
    ensures range { IfOk result (λ n. (least ≤ n) × (n ≤ most)) }
{
    match read_number(text, least as u64, most as u64) {
        Some(number) => Ok(number as u32),
        None => Err(SettingFault::OutOfRange),
    }
}

/// The option with this name, with the value that the text gives it.
pub(crate) fn setting_of(name: &[u8], value: &[u8]) -> Result<Setting, SettingFault>
    ensures setting { result ≡ setting_of name.now value.now }
    ensures range { IfOk result IsSetting }
{
    if name == b"Table".as_slice() {
        Ok(Setting::Table(number_in(value, 1, 1_048_576)?))
    } else if name == b"Workers".as_slice() {
        Ok(Setting::Workers(number_in(value, 1, 16)?))
    } else if name == b"Repetition".as_slice() {
        Ok(Setting::Repetition(number_in(value, 0, 1)? == 1))
    } else {
        Err(SettingFault::NoSuchOption)
    }
}

/// The lines of all options, and `ok`.
pub(crate) fn tell_options(
    alloc: Global,
    table: u32,
    workers: u32,
    repetition: bool,
) -> Result<Reply, AllocError>
    ensures { IfOk result (λ r. text_of r ≡ Some
        (ended (option_line (Setting.Table table) ∷ (option_line (Setting.Workers workers)
        ∷ (option_line (Setting.Repetition repetition) ∷ (codes "ok" ∷ [])))))) }
{
    let mut text = ReplyText::new(alloc);
    push_setting(&mut text, Setting::Table(table))?;
    text.push(b'\n')?;
    push_setting(&mut text, Setting::Workers(workers))?;
    text.push(b'\n')?;
    push_setting(&mut text, Setting::Repetition(repetition))?;
    close(text)
}
