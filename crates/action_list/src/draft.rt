// An action as its object gives it, before it is checked for faults.
ghost use Rattle.std.specs.Prelude.{◌≡◌, IfOk, map};
ghost use Rattle.serde_json.specs.Find.{as_str, get};
ghost use Rattle.serde_json.specs.View.{view};
ghost use Rattle.std.specs.Option.{option_map};

use plain_values::{Items, NoMemory, Text, Variable};
use serde_json::{Map, Value};
use std::alloc::Global;

/// The value at a key: nothing, a value of another kind, or one of the key's kind.
#[derive(Drop)]
pub enum Slot<T> {
    Missing,
    Other,
    Held(T),
}

/// The keys of an action.
#[derive(Drop)]
pub struct Draft {
    pub is_object: bool,
    pub name: Slot<Text>,
    pub mnemonic: Slot<Text>,
    pub argv: Slot<Items<Text>>,
    pub env: Slot<Items<Variable>>,
    pub tools: Slot<Items<Text>>,
    pub inputs: Slot<Items<Text>>,
    pub outputs: Slot<Items<Text>>,
    pub requirements: Slot<Items<Variable>>,
    pub strategy: Slot<Text>,
}

impl Draft {
    ghost use Rattle.action_list.specs.Format.{draft_of};

    #[tactic(auto, unfolding(crate::specs::Format::draft_of))]
    pub fn of(alloc: Global, value: &Value) -> Result<Draft, NoMemory>
        ensures { IfOk result (λ d. d ≡ draft_of (view value.now)) }
    {
        Ok(Draft {
            is_object: value.is_object(),
            name: text_at(alloc, value, "name")?,
            mnemonic: text_at(alloc, value, "mnemonic")?,
            argv: texts_at(alloc, value, "argv")?,
            env: variables_at(alloc, value, "env")?,
            tools: texts_at(alloc, value, "tools")?,
            inputs: texts_at(alloc, value, "inputs")?,
            outputs: texts_at(alloc, value, "outputs")?,
            requirements: variables_at(alloc, value, "requirements")?,
            strategy: text_at(alloc, value, "strategy")?,
        })
    }
}

ghost use Rattle.action_list.specs.Format.{all_texts, all_variables, entry, held, slot, texts, variables};

fn text_at(alloc: Global, value: &Value, key: &str) -> Result<Slot<Text>, NoMemory>
    ensures { IfOk result (λ s. s ≡ slot as_str (get key.now (view value.now))) }
{
    match value.get(key) {
        None => Ok(Slot::Missing),
        Some(found) => Ok(match found.as_str() {
            None => Slot::Other,
            Some(text) => Slot::Held(Text::copy_of(alloc, text)?),
        }),
    }
}

fn texts_at(alloc: Global, value: &Value, key: &str) -> Result<Slot<Items<Text>>, NoMemory>
    ensures { IfOk result (λ s. s ≡ slot texts (get key.now (view value.now))) }
{
    match value.get(key) {
        None => Ok(Slot::Missing),
        Some(found) => texts_in(alloc, found),
    }
}

fn texts_in(alloc: Global, value: &Value) -> Result<Slot<Items<Text>>, NoMemory>
    ensures { IfOk result (λ s. s ≡ held (texts (view value.now))) }
{
    match value.as_array() {
        None => Ok(Slot::Other),
        Some(list) => all_texts(alloc, list),
    }
}

fn all_texts(alloc: Global, list: &[Value]) -> Result<Slot<Items<Text>>, NoMemory>
    ensures { IfOk result (λ s. s ≡ held (all_texts (map view list.now))) }
{
    let mut copies = Vec::new(alloc);
    for element in list {
        match element.as_str() {
            None => return Ok(Slot::Other),
            Some(text) => copies.push(Text::copy_of(alloc, text)?)?,
        }
    }
    Ok(Slot::Held(Items::of(copies)))
}

fn variables_at(alloc: Global, value: &Value, key: &str) -> Result<Slot<Items<Variable>>, NoMemory>
    ensures { IfOk result (λ s. s ≡ slot variables (get key.now (view value.now))) }
{
    match value.get(key) {
        None => Ok(Slot::Missing),
        Some(found) => variables_in(alloc, found),
    }
}

fn variables_in(alloc: Global, value: &Value) -> Result<Slot<Items<Variable>>, NoMemory>
    ensures { IfOk result (λ s. s ≡ held (variables (view value.now))) }
{
    match value.as_object() {
        None => Ok(Slot::Other),
        Some(members) => all_variables(alloc, members),
    }
}

fn all_variables(
    alloc: Global,
    members: &Map<String, Value>,
) -> Result<Slot<Items<Variable>>, NoMemory>
    ensures { IfOk result (λ s. s ≡ held (all_variables (map entry members.now.entries))) }
{
    let mut copies = Vec::new(alloc);
    for (name, value) in members.iter() {
        match value.as_str() {
            None => return Ok(Slot::Other),
            Some(text) => copies.push(variable_of(alloc, name.as_str(), text)?)?,
        }
    }
    Ok(Slot::Held(Items::of(copies)))
}

fn variable_of(alloc: Global, name: &str, value: &str) -> Result<Variable, NoMemory>
    ensures { IfOk result (λ v. v ≡ record { name = name.now; value = value.now }) }
{
    Ok(Variable {
        name: Text::copy_of(alloc, name)?,
        value: Text::copy_of(alloc, value)?,
    })
}
