//! Tests of an edge writer whose readers answer requests: in threads of their own while the writer publishes, and after
//! a reader has learned the list of all installs (changes of the board) that the writer published.
ghost use Rattle.std.specs.Prelude.{All, IfOk, IfSome};
ghost use Rattle.unl_edge_state.specs.Reading.{HasBegun, continuation_of};
ghost use Rattle.unl_publication.specs.Looking.{SameOrigin};

use std::alloc::Global;
use std::sync::Wait;
use std::test::Fail;
use std::thread::Threads;
use unl_base::{Draw, Job, RealSpawner, Spawner};
use unl_core::{Board, Desk, Install};
use unl_delta::Installer;
use unl_documents::{List, Memory, Shared, Text};
use unl_edge_state::{EdgeReader, EdgeWriter, begin, begin_orderly, readers_are_send};
use unl_http_api::{Method, Request};
use unl_tokens::Book;

/// A token book with one frontend token.
const TOKENS: &[u8] = br#"{"tokens":[{"token":"*:dev.f","type":"frontend"}]}"#;

/// The front of an answer (the number of installs that led to its board), and its HTTP status.
type FrontAndStatus = (u64, u16);

/// Creates a writer and two readers of a board with one slot that has no snapshot: by `begin`, where the writer takes
/// any install, or by `begin_orderly`, where each installed version must result from the slot's version by one batch.
fn begun<'a, W: Wait>(
    rt: &'a W,
    alloc: Global,
    orderly: bool,
) -> Result<(EdgeWriter<'a, W>, Vec<EdgeReader>), Memory>
    ensures { IfOk result (λ begun. All (HasBegun begun.0.known) begun.1.items) }
{
    let environments = List::from_vec(vec![in alloc; Text::new(alloc, "dev")?]?);
    let board = Board::new(alloc, 0, "", &environments)?;
    if orderly {
        return begin_orderly(rt, alloc, board, 2);
    }
    begin(rt, alloc, board, 2)
}

/// Publishes the token book of `TOKENS`.
fn publish_book<W: Wait>(alloc: Global, writer: &mut EdgeWriter<'_, W>) -> Result<(), Memory>
    ensures { SameOrigin writer.new.known writer.old.known }
{
    let Ok(book) = Book::read(alloc, TOKENS) else {
        return Err(Memory);
    };
    if writer.front() == u64::MAX {
        return Err(Memory);
    }
    let book = Shared::new(alloc, book)?;
    match writer.publish(alloc, Install::Tokens(book)) {
        Ok(_) => Ok(()),
        Err(Memory) => Err(Memory),
    }
}

/// Requests the toggles with the token of `TOKENS`.
fn ask(alloc: Global, reader: &mut EdgeReader) -> Result<FrontAndStatus, Memory> {
    let request = Request {
        method: Method::Get,
        target: List::from_slice(alloc, b"/api/frontend")?,
        token: Some(List::from_slice(alloc, b"*:dev.f")?),
        tag: None,
        spec: None,
        close: false,
        body: List::new(alloc),
    };
    let (front, answer) = reader.answer(alloc, &request, &Draw { now: 0, word: 0 })?;
    Ok((front, answer.reply.status))
}

/// The status of an answer at front 0, where the token is unknown, and at each later front, where the token is known
/// and its environment's slot has no snapshot.
const STATUSES: [u16; 2] = [403, 503];

/// A job that publishes a token book 20 times. Afterwards `good` is whether all publications succeeded and the front is
/// 20.
struct Publishing<'a, 'w, W: Wait> {
    writer: &'a mut EdgeWriter<'w, W>,
    alloc: Global,
    good: bool,
}

impl<W: Wait> Job for Publishing<'_, '_, W> {
    ghost use Rattle.std.specs.Prelude.{⊤};

    ghost worked = { λ before after. ⊤ };

    ghost cancelled = { λ before after. ⊤ };

    fn work(&mut self) {
        let mut good = true;
        for _ in 0..20 {
            good = publish_book(self.alloc, self.writer).is_ok() && good;
        }
        self.good = good && self.writer.front() == 20;
    }

    fn cancel(&mut self) {}
}

/// A job that sends 200 requests to its reader. Afterwards `good` is whether each answer had the status of its front,
/// and no front was above 20 or below that of the previous answer.
#[derive(Drop)]
struct Asking {
    reader: EdgeReader,
    alloc: Global,
    good: bool,
}

impl Job for Asking {
    ghost use Rattle.std.specs.Prelude.{⊤};

    ghost worked = { λ before after. ⊤ };

    ghost cancelled = { λ before after. ⊤ };

    fn work(&mut self) {
        let mut last = 0;
        let mut good = true;
        for _ in 0..200 {
            match ask(self.alloc, &mut self.reader) {
                Ok((front, status)) => {
                    good = good
                        && last <= front
                        && front <= 20
                        && status == STATUSES[front.min(1) as usize];
                    last = front;
                }
                Err(_) => good = false,
            }
        }
        self.good = good;
    }

    fn cancel(&mut self) {}
}

/// Returns one `Asking` job for each reader.
fn askers(alloc: Global, readers: Vec<EdgeReader>) -> Result<Vec<Asking>, Memory> {
    let mut asking = Vec::new(alloc);
    for reader in readers {
        asking.push(Asking {
            reader,
            alloc,
            good: false,
        })?;
    }
    Ok(asking)
}

/// Publishes on this thread while each reader answers requests in its own thread. Returns whether all publications
/// succeeded and every answer was right.
fn publish_concurrently<R: Threads + Wait>(
    rt: &R,
    alloc: Global,
    writer: &mut EdgeWriter<'_, R>,
    asking: Vec<Asking>,
) -> bool {
    let publishing = Publishing {
        writer,
        alloc,
        good: false,
    };
    let mut spawner = RealSpawner::new(rt);
    readers_are_send();
    let (publishing, asked) = spawner.with(asking, publishing);
    let Publishing {
        writer: _,
        alloc: _,
        good,
    } = publishing;
    match asked {
        Ok(asked) => good && asked.iter().all(|one| one.good),
        Err(_) => false,
    }
}

/// Returns whether two reports of the writer that exist at the same time both contain its list of installs.
fn reports_lists<W: Wait>(writer: &mut EdgeWriter<'_, W>) -> bool {
    let first = writer.tell();
    let second = writer.tell();
    first.has_list() && second.has_list()
}

/// Publishes while two readers answer. Returns whether `reports_lists`, called first, and then `publish_concurrently`
/// both returned true.
fn readers_answer_while_it_publishes<R: Threads + Wait>(
    rt: &R,
    alloc: Global,
    orderly: bool,
) -> Result<bool, Memory> {
    let (mut writer, readers) = begun(rt, alloc, orderly)?;
    let whole = reports_lists(&mut writer);
    let good = match askers(alloc, readers) {
        Ok(asking) => publish_concurrently(rt, alloc, &mut writer, asking),
        Err(Memory) => false,
    };
    writer.end();
    Ok(good && whole)
}

#[test]
fn a_writer_publishes_while_readers_answer(rt: HostRuntime) -> Result<(), Fail> {
    assert!(rt; readers_answer_while_it_publishes(&rt, rt.alloc(), false)?);
    assert!(rt; readers_answer_while_it_publishes(&rt, rt.alloc(), true)?);
    Ok(())
}

/// Takes one of the readers of a writer that has just begun.
fn take_one<W: Wait>(
    writer: &EdgeWriter<'_, W>,
    readers: &mut Vec<EdgeReader>,
) -> Option<EdgeReader>
    requires { All (HasBegun writer.now.known) readers.old.items }
    ensures { IfSome result (λ reader. SameOrigin (continuation_of reader) writer.now.known) }
{
    readers.pop()
}

/// Publishes a token book. Then the writer makes three reports, but it has room for two lists only. The reader learns
/// from the first report. Returns the front and the status of the reader's next answer. Returns an error if
/// `learn_all` succeeds with the third report, which has no list, or fails with the first one, or out of memory.
fn learn_and_ask<W: Wait>(
    alloc: Global,
    writer: &mut EdgeWriter<'_, W>,
    mut reader: EdgeReader,
) -> Result<FrontAndStatus, Memory>
    requires { SameOrigin (continuation_of reader) writer.old.known }
{
    publish_book(alloc, writer)?;
    let first = writer.tell();
    let second = writer.tell();
    if reader.learn_all(writer.tell()).is_ok() {
        return Err(Memory);
    }
    drop(second);
    reader.learn_all(first)?;
    ask(alloc, &mut reader)
}

/// Returns the front and the status of the first answer of a reader that has learned a list of one install.
fn answer_after_learning<W: Wait>(rt: &W, alloc: Global) -> Result<FrontAndStatus, Memory> {
    let (mut writer, mut readers) = begun(rt, alloc, true)?;
    let answer = match take_one(&writer, &mut readers) {
        Some(reader) => learn_and_ask(alloc, &mut writer, reader),
        None => Err(Memory),
    };
    drop(readers);
    writer.end();
    answer
}

#[test]
fn a_reader_learns_all(rt: HostRuntime) -> Result<(), Fail> {
    assert!(rt; answer_after_learning(&rt, rt.alloc())? == (1, 503));
    Ok(())
}
