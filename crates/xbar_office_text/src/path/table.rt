ghost use Rattle.std.specs.Prelude.{◌≡◌, ◌++◌, ◌∷◌, [], OnOk, string_bytes};
ghost use Rattle.xbar_office_text.specs.PathLines.{fields_line, numbers_line, switches_line, values_line, words_line};

use super::switch_name::SwitchName;
use super::three::InThree;
use std::alloc::AllocError;
use xbar_equip::Path;

/// Adds the row of the four switches.
#[tactic(auto, unfolding(crate::specs::PathLines::switches_line))]
pub fn add_switches(text: &mut String, path: &Path) -> Result<(), AllocError>
    ensures { OnOk result (string_bytes text.new ≡ string_bytes text.old ++
        switches_line path.now) }
{
    let line_frame = path.line.frame();
    let line_switch = path.line.switch();
    let channel = path.channel.number();
    let trunk_frame = path.place.frame();
    let trunk_switch = path.place.switch();
    let first = SwitchName(line_frame, line_switch);
    let second = SwitchName(line_frame, channel);
    let third = SwitchName(trunk_frame, channel);
    let fourth = SwitchName(trunk_frame, trunk_switch);
    writeln!(
        text,
        "switch  {first}                     {second}       {third}                     {fourth}"
    )?;
    Ok(())
}

/// Adds the row of the words of the path's crosspoints.
pub fn add_words(text: &mut String, path: &Path) -> Result<(), AllocError>
    ensures { OnOk result (string_bytes text.new ≡ string_bytes text.old ++ words_line path.now) }
{
    let [first, second, third, fourth] = path.crosspoints();
    add_numbers(
        text,
        "word    ",
        first.word.number(),
        second.word.number(),
        third.word.number(),
        fourth.word.number(),
    )
}

/// Adds the row of the fields of the path's crosspoints.
pub fn add_fields(text: &mut String, path: &Path) -> Result<(), AllocError>
    ensures { OnOk result (string_bytes text.new ≡ string_bytes text.old ++ fields_line path.now) }
{
    let [first, second, third, fourth] = path.crosspoints();
    add_numbers(
        text,
        "field   ",
        u16::from(first.field),
        u16::from(second.field),
        u16::from(third.field),
        u16::from(fourth.field),
    )
}

/// Adds the row of the values that these fields hold.
pub fn add_values(text: &mut String, path: &Path) -> Result<(), AllocError>
    ensures { OnOk result (string_bytes text.new ≡ string_bytes text.old ++ values_line path.now) }
{
    let [first, second, third, fourth] = path.crosspoints();
    add_numbers(
        text,
        "holds   ",
        u16::from(first.value),
        u16::from(second.value),
        u16::from(third.value),
        u16::from(fourth.value),
    )
}

/// Adds a row of four numbers, one under each switch.
#[tactic(auto, unfolding(crate::specs::PathLines::numbers_line))]
fn add_numbers(
    text: &mut String,
    name: &str,
    first: u16,
    second: u16,
    third: u16,
    fourth: u16,
) -> Result<(), AllocError>
    ensures { OnOk result (string_bytes text.new ≡ string_bytes text.old ++
        numbers_line name.now (first ∷ second ∷ third ∷ fourth ∷ [])) }
{
    let first = InThree(first);
    let second = InThree(second);
    let third = InThree(third);
    let fourth = InThree(fourth);
    write!(text, "{name}{first}                     {second}       ")?;
    writeln!(text, "{third}                     {fourth}")?;
    Ok(())
}
