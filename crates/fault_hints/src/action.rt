// One action, as the list gives it.
use crate::keys::{OF_ACTION, OF_REQUIREMENTS, is_known, nearest};
use crate::page::Page;
use plain_values::NoMemory;
use serde_json::{Map, Value};
use std::alloc::Global;

/// An action's value, with its number from 0.
#[derive(Clone, Copy)]
pub struct Listed<'a> {
    pub value: &'a Value,
    pub number: u32,
}

impl<'a> Listed<'a> {
    /// Returns the action with this number, if the list has it.
    pub fn of(top: &'a Value, number: u32) -> Option<Listed<'a>> {
        let value = top.get("actions")?.as_array()?.get(number as usize)?;
        Some(Listed { value, number })
    }

    /// Returns the string at a key.
    pub fn text(&self, key: &str) -> Option<&'a str> {
        self.value.get(key)?.as_str()
    }

    /// Returns true if this string is an element of the array at a key.
    pub fn has(&self, key: &str, text: &str) -> bool {
        match self.value.get(key).and_then(Value::as_array) {
            Some(elements) => elements.iter().any(|one| one.as_str() == Some(text)),
            None => false,
        }
    }

    /// Returns the value at a requirement.
    pub fn requirement(&self, key: &str) -> Option<&'a Value> {
        self.value.get("requirements")?.get(key)
    }

    /// Adds a line with the action's name, if it has one.
    pub fn add_name(&self, alloc: Global, page: &mut Page) -> Result<(), NoMemory> {
        let number = self.number;
        let Some(name) = self.text("name") else {
            return Ok(());
        };
        let line = format!(in alloc; "actions[{number}] has the name {name:?}")?;
        page.add(alloc, line.as_str())
    }

    /// Adds a line for each unknown key, and for each requirement that is like a known one.
    pub fn add_unknown(&self, alloc: Global, page: &mut Page) -> Result<(), NoMemory> {
        let number = self.number;
        if let Some(members) = self.value.as_object() {
            let place = format!(in alloc; "actions[{number}]")?;
            add_keys(alloc, page, place.as_str(), members, &OF_ACTION)?;
        }
        if let Some(members) = self.value.get("requirements").and_then(Value::as_object) {
            let place = format!(in alloc; "actions[{number}].requirements")?;
            add_likely(alloc, page, place.as_str(), members, &OF_REQUIREMENTS)?;
        }
        Ok(())
    }

    /// Adds a line for each key and each requirement that is like a known one.
    pub fn add_misspelled(&self, alloc: Global, page: &mut Page) -> Result<(), NoMemory> {
        let number = self.number;
        if let Some(members) = self.value.as_object() {
            let place = format!(in alloc; "actions[{number}]")?;
            add_likely(alloc, page, place.as_str(), members, &OF_ACTION)?;
        }
        if let Some(members) = self.value.get("requirements").and_then(Value::as_object) {
            let place = format!(in alloc; "actions[{number}].requirements")?;
            add_likely(alloc, page, place.as_str(), members, &OF_REQUIREMENTS)?;
        }
        Ok(())
    }
}

/// Adds a line for each key that isn't known.
pub fn add_keys(
    alloc: Global,
    page: &mut Page,
    place: &str,
    members: &Map<String, Value>,
    known: &[&'static str],
) -> Result<(), NoMemory> {
    for (key, _) in members.iter() {
        if !is_known(key.as_str(), known) {
            add_key(
                alloc,
                page,
                place,
                key.as_str(),
                nearest(key.as_str(), known),
            )?;
        }
    }
    Ok(())
}

// A key that isn't known may be another tool's, so only one that is like a known one is named.
fn add_likely(
    alloc: Global,
    page: &mut Page,
    place: &str,
    members: &Map<String, Value>,
    known: &[&'static str],
) -> Result<(), NoMemory> {
    for (key, _) in members.iter() {
        let near = nearest(key.as_str(), known);
        if near.is_some() && !is_known(key.as_str(), known) {
            add_key(alloc, page, place, key.as_str(), near)?;
        }
    }
    Ok(())
}

fn add_key(
    alloc: Global,
    page: &mut Page,
    place: &str,
    key: &str,
    near: Option<&'static str>,
) -> Result<(), NoMemory> {
    let line = match near {
        Some(near) => format!(in alloc;
            "{place} has the key {key:?}, which means nothing here; {near:?} does"
        )?,
        None => format!(in alloc; "{place} has the key {key:?}, which means nothing here")?,
    };
    page.add(alloc, line.as_str())
}
