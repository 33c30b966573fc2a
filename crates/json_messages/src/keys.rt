// The names of the keys, and the value at a key.
ghost use Rattle.std.specs.Prelude.{◌≡◌};
ghost use Rattle.std.specs.Option.{option_map};
ghost use Rattle.serde_json.specs.View.{view};
ghost use Rattle.json_messages.specs.Keys.{camel, snake, unless_null, value_at};

use serde_json::Value;
use wire_messages::JsonKey;

/// Returns the name of a key, as it is written.
pub(crate) fn camel(key: JsonKey) -> &'static str
    ensures { result.now ≡ camel key }
{
    match key {
        JsonKey::Arguments => "arguments",
        JsonKey::Inputs => "inputs",
        JsonKey::Path => "path",
        JsonKey::Digest => "digest",
        JsonKey::RequestId => "requestId",
        JsonKey::Cancel => "cancel",
        JsonKey::Verbosity => "verbosity",
        JsonKey::SandboxDir => "sandboxDir",
        JsonKey::ExitCode => "exitCode",
        JsonKey::Output => "output",
        JsonKey::WasCancelled => "wasCancelled",
    }
}

// Returns the other name under which a key is read.
fn snake(key: JsonKey) -> &'static str
    ensures { result.now ≡ snake key }
{
    match key {
        JsonKey::RequestId => "request_id",
        JsonKey::SandboxDir => "sandbox_dir",
        JsonKey::ExitCode => "exit_code",
        JsonKey::WasCancelled => "was_cancelled",
        other => camel(other),
    }
}

/// Returns the value at a key, unless it is `null`. If both of the key's names occur, the first one counts.
pub(crate) fn value_at(object: &Value, key: JsonKey) -> Option<&Value>
    ensures { option_map (λ v. view v.now) result ≡ value_at key (view object.now) }
{
    let found = match object.get(camel(key)) {
        Some(value) => Some(value),
        None => object.get(snake(key)),
    };
    match found {
        Some(value) => unless_null(value),
        None => None,
    }
}

fn unless_null(value: &Value) -> Option<&Value>
    ensures { option_map (λ v. view v.now) result ≡ unless_null (view value.now) }
{
    if value.is_null() { None } else { Some(value) }
}
