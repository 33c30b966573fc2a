//! Facts about the shelf after any history. The functions do nothing: each is a law.
ghost use Rattle.std.specs.Prelude.{◌≡◌, ℕ, List};
ghost use Rattle.plain_values.specs.declared.entry.Entry.{Entry};
ghost use Rattle.seat_desk.specs.History.{calls_by};
ghost use Rattle.exec_journal.specs.declared.call.Call.{Call};
ghost use Rattle.exec_journal.specs.declared.reply.Reply.{Reply};
ghost use Rattle.core_contract.specs.Shelf.{child_at};
ghost use Rattle.core_contract.specs.Duties.{proxy_lane};

/// The entries of a berth's proxy lane alone determine whose child is on the shelf for the berth.
pub fn children_are_own()
    ensures { (w : ℕ) (h : List (Entry Call Reply))
        → child_at w h ≡ child_at w (calls_by (proxy_lane w) h) }
{}
