//! The core's requirements on a journal.
ghost use Rattle.table_laws.specs.Moments.{AllLawful};

/// Each lawful journal of a sound plan meets all requirements of a core's tables, with each call in
/// a lane's script, and each entry that joins.
pub fn all_facts()
    ensures { AllLawful }
{}
