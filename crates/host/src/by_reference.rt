// The six calls of a session over a record lent by reference (SCOPE 7.7), for a host that keeps one: each hands the record to the call by
// value and stores what comes back. Exported to C as they are; include/perillahinge.h says what each is for. One equation for the record, the
// reply, the cells and the journal.
ghost use Rattle.std.specs.Prelude.{◌≡◌};
ghost use Rattle.session_calls.specs.Calls.{outcome, recorded, session_set_does, session_column_does, session_batch_does, session_undo_does};
ghost use Rattle.session_calls.specs.Checkpoints.{session_checkpoint_does, session_restore_does};

use session_calls::{Reply, Session};

#[unsafe(no_mangle)]
pub extern "C" fn pl_session_set(
    session: &mut Session,
    cells: &mut [u16],
    journal: &mut [u8],
    x: usize,
    y: usize,
    z: usize,
    id: u16,
) -> Reply
    ensures { outcome session.new result cells.new journal.new
        ≡ session_set_does session.old cells.old journal.old x y z id }
{
    let b = session_by_value::set(*session, cells, journal, x, y, z, id);
    *session = b.session;
    b.reply
}

#[unsafe(no_mangle)]
pub extern "C" fn pl_session_fill_column(
    session: &mut Session,
    cells: &mut [u16],
    journal: &mut [u8],
    x: usize,
    z: usize,
    height: usize,
    id: u16,
) -> Reply
    ensures { outcome session.new result cells.new journal.new
        ≡ session_column_does session.old cells.old journal.old x z height id }
{
    let b = session_by_value::fill_column(*session, cells, journal, x, z, height, id);
    *session = b.session;
    b.reply
}

#[unsafe(no_mangle)]
pub extern "C" fn pl_session_set_blocks(
    session: &mut Session,
    cells: &mut [u16],
    journal: &mut [u8],
    edits: &[u32],
) -> Reply
    ensures { outcome session.new result cells.new journal.new
        ≡ session_batch_does session.old cells.old journal.old edits.now }
{
    let b = session_by_value::set_blocks(*session, cells, journal, edits);
    *session = b.session;
    b.reply
}

#[unsafe(no_mangle)]
pub extern "C" fn pl_session_undo(
    session: &mut Session,
    cells: &mut [u16],
    journal: &mut [u8],
) -> Reply
    ensures { outcome session.new result cells.new journal.new
        ≡ session_undo_does session.old cells.old journal.old }
{
    let b = session_by_value::undo(*session, cells, journal);
    *session = b.session;
    b.reply
}

#[unsafe(no_mangle)]
pub extern "C" fn pl_session_checkpoint(
    session: &mut Session,
    journal: &mut [u8],
    name: &[u8],
) -> Reply
    ensures { recorded session.new result journal.new
        ≡ session_checkpoint_does session.old journal.old name.now }
{
    let b = session_by_value::checkpoint(*session, journal, name);
    *session = b.session;
    b.reply
}

#[unsafe(no_mangle)]
pub extern "C" fn pl_session_restore(
    session: &mut Session,
    cells: &mut [u16],
    journal: &mut [u8],
    name: &[u8],
) -> Reply
    ensures { outcome session.new result cells.new journal.new
        ≡ session_restore_does session.old cells.old journal.old name.now }
{
    let b = session_by_value::restore(*session, cells, journal, name);
    *session = b.session;
    b.reply
}
