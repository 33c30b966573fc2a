ghost use Rattle.std.specs.Prelude.{◌≡◌, IfOk, string_bytes};
ghost use Rattle.build_report.specs.declared.fault.RunFault.TheVariants.{NoMemory};
ghost use Rattle.build_report.specs.declared.fault.Stage.TheVariants.{Before};
ghost use Rattle.build_report.specs.Faults.{fault_text, fault_status, list_name, list_action, list_text, flag_name, flag_path, flag_text};

use action_list::ListFault;
use flag_files::FlagFault;
use plain_values::{NoMemory, Text};
use std::alloc::Global;

/// The reason that a run ended without its report.
#[derive(Drop)]
pub enum RunFault {
    /// The words of the command aren't accepted.
    Words,
    /// Memory ran out in this stage.
    NoMemory(Stage),
    /// The bytes of the list aren't an action list.
    List(ListFault),
    /// The request words of this action can't be expanded.
    Flags { action: u32, fault: FlagFault },
    /// No file is at this path.
    Absent { path: Text },
    /// The file at this path wasn't read.
    FloorFailed { path: Text },
    /// The report wasn't written completely.
    SinkFailed,
}

/// The stage in which memory ran out.
#[derive(Clone, Copy, PartialEq, Eq)]
pub enum Stage {
    /// Before a lane was started.
    Before,
    /// While the lanes were at work: they halted.
    During,
    /// After the lanes, for the report.
    After,
}

/// Lack of memory outside the lanes counts as lack of memory before them.
impl From<NoMemory> for RunFault {
    ghost from_gives = { λ _ e. e ≡ NoMemory Before };

    fn from(_: NoMemory) -> Self {
        RunFault::NoMemory(Stage::Before)
    }
}

impl RunFault {
    /// Returns the exit status of a run that ends with this fault.
    pub fn status(&self) -> u8
        ensures { result ≡ fault_status self.now }
    {
        match self {
            RunFault::Words => 2,
            RunFault::NoMemory(_) => 3,
            RunFault::List(_) | RunFault::Flags { .. } => 4,
            RunFault::Absent { .. } | RunFault::FloorFailed { .. } => 5,
            RunFault::SinkFailed => 6,
        }
    }
}

/// Returns the line that is printed on standard error, without its line feed.
///
/// # Errors
///
/// Returns `NoMemory` if memory runs out.
pub fn fault_line(alloc: Global, fault: &RunFault) -> Result<Text, NoMemory>
    ensures { IfOk result (λ line. line ≡ fault_text fault.now) }
{
    let line = match fault {
        RunFault::Words => String::from_str(alloc, "worker_tool: words are not accepted")?,
        RunFault::NoMemory(_) => String::from_str(alloc, "worker_tool: no memory")?,
        RunFault::List(fault) => list_line(alloc, fault)?,
        RunFault::Flags { action, fault } => flag_line(alloc, *action, fault)?,
        RunFault::Absent { path } => {
            let path = path.as_str();
            format!(in alloc; "worker_tool: not there: {path}")?
        }
        RunFault::FloorFailed { path } => {
            let path = path.as_str();
            format!(in alloc; "worker_tool: not read: {path}")?
        }
        RunFault::SinkFailed => String::from_str(alloc, "worker_tool: report not written")?,
    };
    Ok(Text::of(line))
}

fn list_line(alloc: Global, fault: &ListFault) -> Result<String, NoMemory>
    ensures { IfOk result (λ line. string_bytes line ≡ list_text (list_name fault.now)
        (list_action fault.now)) }
{
    let name = name_of_list_fault(fault);
    let line = match action_of_list_fault(fault) {
        Some(action) => format!(in alloc; "worker_tool: list refused: {name} action {action}")?,
        None => format!(in alloc; "worker_tool: list refused: {name}")?,
    };
    Ok(line)
}

fn name_of_list_fault(fault: &ListFault) -> &'static str
    ensures { result.now ≡ list_name fault.now }
{
    match fault {
        ListFault::TooMany { .. } => "TooMany",
        ListFault::NotJson => "NotJson",
        ListFault::WrongKind { .. } => "WrongKind",
        ListFault::MissingKey { .. } => "MissingKey",
        ListFault::BadName { .. } => "BadName",
        ListFault::BadPath { .. } => "BadPath",
        ListFault::BadRequirement { .. } => "BadRequirement",
        ListFault::NoStrategy { .. } => "NoStrategy",
        ListFault::NoFlagFile { .. } => "NoFlagFile",
        ListFault::TwiceNamed { .. } => "TwiceNamed",
        ListFault::TwiceMade { .. } => "TwiceMade",
        ListFault::MadeLater { .. } => "MadeLater",
    }
}

fn action_of_list_fault(fault: &ListFault) -> Option<u32>
    ensures { result ≡ list_action fault.now }
{
    match fault {
        ListFault::TooMany { .. } | ListFault::NotJson => None,
        ListFault::WrongKind { action, .. } => *action,
        ListFault::MissingKey { action, .. } => *action,
        ListFault::BadName { action } => Some(*action),
        ListFault::BadPath { action, .. } => Some(*action),
        ListFault::BadRequirement { action } => Some(*action),
        ListFault::NoStrategy { action } => Some(*action),
        ListFault::NoFlagFile { action } => Some(*action),
        ListFault::TwiceNamed { action } => Some(*action),
        ListFault::TwiceMade { action, .. } => Some(*action),
        ListFault::MadeLater { action, .. } => Some(*action),
    }
}

fn flag_line(alloc: Global, action: u32, fault: &FlagFault) -> Result<String, NoMemory>
    ensures { IfOk result (λ line. string_bytes line ≡ flag_text (flag_name fault.now)
        (flag_path fault.now) action) }
{
    let line = match fault {
        FlagFault::NoSuchFile { path } => flag_path_line(
            alloc,
            "NoSuchFile",
            path.as_str(),
            action,
        )?,
        FlagFault::TooDeep { path } => flag_path_line(alloc, "TooDeep", path.as_str(), action)?,
        FlagFault::NotText { path } => flag_path_line(alloc, "NotText", path.as_str(), action)?,
        FlagFault::TooManyWords => format!(in alloc;
            "worker_tool: flag file refused: TooManyWords action {action}"
        )?,
        FlagFault::NoMemory => format!(in alloc;
            "worker_tool: flag file refused: NoMemory action {action}"
        )?,
    };
    Ok(line)
}

fn flag_path_line(alloc: Global, name: &str, path: &str, action: u32) -> Result<String, NoMemory>
    ensures { IfOk result (λ line. string_bytes line ≡ flag_text name.now (Some path.now) action) }
{
    Ok(format!(in alloc; "worker_tool: flag file refused: {name} {path} action {action}")?)
}
