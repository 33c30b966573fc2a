// The log of an object's calls. It is given up once memory runs out for an entry.
ghost use Rattle.std.specs.Prelude.{◌≡◌, ◌∷◌, [], ◌++◌, OnOk, OnErr, IfOk, IsOk, None, option_map, true, false};

use plain_values::NoMemory;

/// Appends a call to a log, unless the log was given up.
pub fn note<C: Drop>(log: &mut Option<Vec<C>>, call: C) -> Result<(), NoMemory>
    ensures ok { OnOk result (option_map (λ v. v.items) log.new ≡ option_map (λ v. v.items
        ++ call ∷ []) log.old) }
    ensures err { OnErr result (option_map (λ v. v.items) log.new ≡ option_map
        (λ v. v.items) log.old) }
{
    if let Some(log) = log {
        log.push(call)?;
    }
    Ok(())
}

/// Records a call that is answered by an `Io`. Returns true if there was memory to record it. Otherwise the
/// log is given up.
pub fn note_end<C: Drop>(log: &mut Option<Vec<C>>, call: Result<C, NoMemory>) -> bool
    ensures noted { result ≡ true
        → IfOk call (λ c. option_map (λ v. v.items) log.new ≡ option_map (λ v. v.items
        ++ c ∷ []) log.old) }
    ensures call { result ≡ true → IsOk call }
    ensures lost { result ≡ false → log.new ≡ None }
{
    if let Ok(call) = call
        && note(log, call).is_ok()
    {
        return true;
    }
    *log = None;
    false
}
