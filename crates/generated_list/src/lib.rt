//! The list that is generated for trials of whole runs. It has as many actions as requested, of every strategy, request
//! mode and protocol. Each action makes one file. From the eighth action on, each reads the file of the action seven
//! places before it.
#![tactic(auto)]

ghost use Rattle.std.specs.Prelude.{◌≡◌, ◌++◌, ◌%◌, ◌-◌, ◌==◌, [], ◌∷◌, IfOk, OnOk};
ghost use Rattle.serde_json.specs.Data.{string, array};
ghost use Rattle.serde_json.specs.View.{view, members_view, items_of};
ghost use Rattle.generated_list.specs.Generated.{action_data, actions_below, array_of, generated_data, generated_text, inputs_data, needed, needs_data, numbered, strategy_of, words_data};

use plain_values::NoMemory;
use serde_json::{Map, Value, put};
use std::alloc::Global;

/// Returns the text of the list with this many actions. It is compact JSON, with keys in the order of their bytes. It
/// has no environments and no tools. Its sources are the flag files `flags/0` and so on. Each of them gives its
/// action's output in a word `--out=`.
///
/// # Errors
///
/// Returns `NoMemory` if memory runs out.
pub fn generated_list(alloc: Global, actions: u32) -> Result<Vec<u8>, NoMemory>
    ensures { IfOk result (λ v. v.items ≡ generated_text actions) }
{
    let list = list(alloc, actions)?;
    Ok(list.to_vec(alloc)?)
}

fn list(alloc: Global, actions: u32) -> Result<Value, NoMemory>
    ensures { IfOk result (λ v. view v ≡ generated_data actions) }
{
    let mut list = Map::new(alloc);
    put(&mut list, alloc, "actions", works(alloc, actions)?)?;
    Ok(Value::Object(list))
}

fn works(alloc: Global, actions: u32) -> Result<Value, NoMemory>
    ensures { IfOk result (λ v. view v ≡ array_of (actions_below actions)) }
{
    let mut works = Vec::new(alloc);
    for number in 0..actions {
        works.push(action(alloc, number)?)?;
    }
    Ok(Value::Array(works))
}

fn action(alloc: Global, number: u32) -> Result<Value, NoMemory>
    ensures { IfOk result (λ v. view v ≡ action_data number) }
{
    let mut parts = Map::new(alloc);
    put(&mut parts, alloc, "argv", words(alloc, number)?)?;
    put(&mut parts, alloc, "inputs", inputs(alloc, number)?)?;
    put(&mut parts, alloc, "mnemonic", text(alloc, "Gen")?)?;
    put(&mut parts, alloc, "name", named(alloc, "g", number)?)?;
    put(
        &mut parts,
        alloc,
        "outputs",
        only(alloc, named(alloc, "out/", number)?)?,
    )?;
    put(&mut parts, alloc, "requirements", needs(alloc, number)?)?;
    put(
        &mut parts,
        alloc,
        "strategy",
        text(alloc, strategy_of(number))?,
    )?;
    Ok(Value::Object(parts))
}

fn text(alloc: Global, text: &str) -> Result<Value, NoMemory>
    ensures { IfOk result (λ v. view v ≡ string text.now) }
{
    Ok(Value::String(String::from_str(alloc, text)?))
}

// Returns the text followed by the number.
fn named(alloc: Global, text: &str, number: u32) -> Result<Value, NoMemory>
    ensures { IfOk result (λ v. view v ≡ numbered text.now number) }
{
    Ok(Value::String(format!(in alloc; "{text}{number}")?))
}

fn only(alloc: Global, value: Value) -> Result<Value, NoMemory>
    ensures { IfOk result (λ v. view v ≡ array (items_of (view value ∷ []))) }
{
    let mut values = Vec::new(alloc);
    values.push(value)?;
    Ok(Value::Array(values))
}

fn words(alloc: Global, number: u32) -> Result<Value, NoMemory>
    ensures { IfOk result (λ v. view v ≡ words_data number) }
{
    let mut words = Vec::new(alloc);
    words.push(text(alloc, "gen")?)?;
    words.push(named(alloc, "--mode=", number % 2)?)?;
    words.push(named(alloc, "@flags/", number)?)?;
    Ok(Value::Array(words))
}

fn inputs(alloc: Global, number: u32) -> Result<Value, NoMemory>
    ensures { IfOk result (λ v. view v ≡ inputs_data number) }
{
    let mut inputs = Vec::new(alloc);
    inputs.push(named(alloc, "flags/", number)?)?;
    if number >= 7 {
        inputs.push(named(alloc, "out/", number - 7)?)?;
    }
    Ok(Value::Array(inputs))
}

// Returns an action's requirements. Every worker can be asked to cancel. Each second one takes several requests at a
// time, and each second one of those uses JSON.
fn needs(alloc: Global, number: u32) -> Result<Value, NoMemory>
    ensures { IfOk result (λ v. view v ≡ needs_data number) }
{
    let mut needs = Map::new(alloc);
    put(&mut needs, alloc, "supports-workers", text(alloc, "1")?)?;
    put(
        &mut needs,
        alloc,
        "supports-worker-cancellation",
        text(alloc, "1")?,
    )?;
    need_if(
        number % 2 == 1,
        &mut needs,
        alloc,
        "supports-multiplex-workers",
        "1",
    )?;
    need_if(
        number % 4 == 3,
        &mut needs,
        alloc,
        "requires-worker-protocol",
        "json",
    )?;
    Ok(Value::Object(needs))
}

fn need_if(
    test: bool,
    needs: &mut Map<String, Value>,
    alloc: Global,
    name: &str,
    value: &str,
) -> Result<(), NoMemory>
    ensures { OnOk result (members_view needs.new.entries
        ≡ needed test name.now value.now (members_view needs.old.entries)) }
{
    if !test {
        return Ok(());
    }
    put(needs, alloc, name, text(alloc, value)?)?;
    Ok(())
}

fn strategy_of(number: u32) -> &'static str
    ensures { result.now ≡ strategy_of number }
{
    match number % 3 {
        0 => "worker",
        1 => "remote",
        _ => "dynamic",
    }
}
