//! Laws about the speeches of all berths and the commands of all groups. The functions do nothing: they
//! are laws.
ghost use Rattle.run_tasks.specs.Laws.{CommandsLaw, PartsLaw, SpeechLaw, SpeechesLaw};

/// Shows that each berth of the plan has a speech, which is the speech of its group's part.
pub fn speeches_are_of_berths()
    ensures { SpeechesLaw }
{}

/// Shows that each group of the plan has a command, which is the command of its part.
pub fn commands_are_of_groups()
    ensures { CommandsLaw }
{}

/// Shows that each group of the plan has a part.
pub fn parts_are_of_groups()
    ensures { PartsLaw }
{}

/// Shows that a berth has the executor's speech exactly if the berth is an executor's.
pub fn executors_speak_as_such()
    ensures { SpeechLaw }
{}
