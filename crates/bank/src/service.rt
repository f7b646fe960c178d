//! A service of two threads.
ghost use Rattle.std.specs.Prelude.{◌≡◌};

use crate::bank::{count, open_accounts, total, transfer};
use slate_connection::Connection;
use slate_shared::{Database, Plain};
use slate_store::Store;
use slate_types::SlateDBError;
use std::alloc::Global;
use std::sync::Wait;
use std::thread;
use std::thread::Threads;

/// Serves a bank by two threads, one of which stores it too. Returns what all accounts have at
/// the end. The two stores are to reach the same objects.
pub fn serve<R: Threads + Wait + Sync, S: Store + Send>(
    rt: &R,
    alloc: Global,
    first: &mut S,
    second: &mut S,
) -> Result<u64, SlateDBError> {
    let (db, pass) = Database::<Plain>::new(alloc, &Plain::laws(alloc).options)?;
    let mut clerk = Connection::new(rt, alloc, &db, pass, first);
    open_accounts(&mut clerk)?;
    let keeper = clerk.split(second);
    let ((mut clerk, moved), (keeper, stored)) = thread::join(
        rt,
        move || move_around(clerk),
        move || move_and_store(keeper),
    );
    clerk.join(keeper);
    moved.and(stored)?;
    total(&mut clerk)
}

/// What a thread ends with: its connection, and how its work went.
type Worked<'a, R, S> = (Connection<'a, R, S>, Result<(), SlateDBError>);

/// Moves money, and counts how often some moved.
fn move_around<R: Wait, S: Store>(mut db: Connection<'_, R, S>) -> Worked<'_, R, S>
    ensures table { result.0.pass.table ≡ db.entry.pass.table }
{
    let moved = move_all(&mut db);
    (db, moved)
}

fn move_all<R: Wait, S: Store>(db: &mut Connection<'_, R, S>) -> Result<(), SlateDBError>
    ensures table { db.new.pass.table ≡ db.old.pass.table }
{
    for n in 0..500u64 {
        if transfer(db, (n % 10) as u8, (n % 7) as u8, n % 30)? {
            count(db, b"moved")?;
        }
    }
    Ok(())
}

/// Moves money, and stores what there is behind each transfer.
fn move_and_store<R: Wait, S: Store>(mut db: Connection<'_, R, S>) -> Worked<'_, R, S>
    ensures table { result.0.pass.table ≡ db.entry.pass.table }
{
    let stored = store_all(&mut db);
    (db, stored)
}

fn store_all<R: Wait, S: Store>(db: &mut Connection<'_, R, S>) -> Result<(), SlateDBError>
    ensures table { db.new.pass.table ≡ db.old.pass.table }
{
    for n in 0..50u8 {
        transfer(db, n % 10, n % 3, 1)?;
        db.flush()?;
    }
    Ok(())
}
