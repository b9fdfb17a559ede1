ghost use Rattle.std.specs.Prelude.{◌≡◌, ◌+◌, ◌≤◌, ◌++◌, length, map, string_bytes, option_map, OnSome};
ghost use Rattle.word_schema.specs.Forms.{forms_of, rows_of, schema_of};
ghost use Rattle.word_schema.specs.Given.{operand_values, option_values, values_of};
ghost use Rattle.word_schema.specs.Steps.{options_given};

use crate::given::{Given, are_compatible, given_by, have_what_they_need, option_value};
use crate::schema::{CommandSchema, OperandSchema, OptionSchema};
use crate::single::value_of;
use crate::value::Values;

/// Returns what `words`, those behind the name of `command`, say: a value for each operand and then for each option, in the schema's
/// order. Returns `None` where they are none of its words: too few operands, a word that is no value of its operand or option, a word
/// in an option's place that names none, a name without its value, an option that is given twice, one that must be given and isn't,
/// two that exclude each other, or one without the other that it needs. A command may have no more than 16 operands and options. No
/// memory is taken.
pub fn read_values(command: &CommandSchema, words: &[String]) -> Option<Values>
    requires { length command.now.operands.now + length command.now.options.now ≤ 16 }
    ensures { result ≡ values_of (schema_of command.now) (map string_bytes words.now) }
{
    if words.len() < command.operands.len() {
        return None;
    }
    let (front, behind) = words.split_at(command.operands.len());
    let mut values = Values::none();
    push_operands(command.operands, front, &mut values)?;
    let given = given_by(command.options, behind)?;
    if !are_compatible(command.exclusive, given.as_slice()) {
        return None;
    }
    if !have_what_they_need(command.needs, given.as_slice()) {
        return None;
    }
    push_options(command.options, given.as_slice(), &mut values)?;
    Some(values)
}

// Adds what each operand says, of as many words.
fn push_operands(operands: &[OperandSchema], words: &[String], values: &mut Values) -> Option<()>
    requires alike { length words.now ≡ length operands.now }
    requires room { length values.old + length operands.now ≤ 16 }
    ensures values { option_map (λ _. values.new) result
        ≡ option_map (λ more. values.old ++ more) (operand_values (forms_of operands.now) (map string_bytes words.now)) }
    ensures len { OnSome result (length values.new ≡ length values.old + length operands.now) }
{
    let mut index = 0;
    while index < operands.len() {
        values.push(value_of(operands[index].form, words[index].as_str())?);
        index += 1;
    }
    Some(())
}

// Adds what each option says.
fn push_options(options: &[OptionSchema], given: &[Given], values: &mut Values) -> Option<()>
    requires room { length values.old + length options.now ≤ 16 }
    ensures values { option_map (λ _. values.new) result
        ≡ option_map (λ more. values.old ++ more) (option_values (rows_of options.now) (options_given given.now)) }
{
    for option in options {
        values.push(option_value(option, given)?);
    }
    Some(())
}
