//! A test of published values, with a reader that learns of each publication from what the writer reports, and one that
//! does not.
ghost use Rattle.std.specs.Prelude.{◌≡◌, ◌<◌, ◌≤◌, IfOk, IfSome};
ghost use Rattle.unl_publication.specs.Looking.{SameOrigin};
ghost use Rattle.unl_publication.specs.Seen.{next, published, reported_list};

use left_right::Absorb;
use std::alloc::{AllocError, Global};
use std::sync::Wait;
use std::test::Fail;
use unl_publication::{Counted, Publisher, Reader, Ruled, Told, Writer, new_reader};

/// A number that is published, and how many numbers were published so far (the front).
#[derive(Drop)]
struct Setting {
    number: u64,
    front: u64,
}

impl Absorb<u64> for Setting {
    type State = Setting;

    ghost use Rattle.std.specs.Prelude.{◌+◌};

    ghost state = { λ setting. setting };

    ghost applied = { λ setting number. record { number = number; front = setting.front + 1 } };

    fn absorb_first(&mut self, operation: &u64, _other: &Setting) -> Result<(), AllocError> {
        if self.front == u64::MAX {
            return Err(AllocError);
        }
        self.number = *operation;
        self.front += 1;
        Ok(())
    }
}

impl Counted<u64> for Setting {
    ghost use Rattle.std.specs.Prelude.{refl};

    ghost front_of = { λ setting. setting.front };

    fn front(&self) -> u64 {
        self.front
    }

    ghost counts = { λ s what. refl };
}

/// The opening value: the number 0 at front 0.
fn opening() -> Setting
    ensures { (result.number ≡ 0) × (result.front ≡ 0) }
{
    Setting {
        number: 0,
        front: 0,
    }
}

/// A reader of settings.
type SettingReader = Reader<Setting, u64, Ruled<u64>>;

/// A publisher of settings.
type SettingPublisher<'a, W> = Publisher<'a, W, Setting, u64, Ruled<u64>>;

/// The result of a look: the front, and the sum of the number that was seen and a given number. `None` if the look
/// failed.
type Look = Option<(u64, u64)>;

/// Looks once, and returns the front and the sum of the number seen and `added`.
fn look_once(reader: SettingReader, added: u64) -> (SettingReader, Look)
    ensures { SameOrigin (next result.0) (next reader) }
{
    match reader.enter() {
        Ok(guard) => {
            let front = guard.front();
            let sum = guard.value().number.saturating_add(added);
            (guard.leave(), Some((front, sum)))
        }
        Err(reader) => (reader, None),
    }
}

/// Publishes a number, and returns the report that the writer makes then for one reader.
fn publish_and_tell<W: Wait>(
    writer: &mut SettingPublisher<'_, W>,
    number: u64,
) -> Result<Told<Setting, u64, Ruled<u64>>, AllocError>
    ensures writer { SameOrigin (published writer.new) (published writer.old) }
    ensures told { IfOk result (λ told. IfSome (reported_list told) (λ list. SameOrigin list (published writer.old))) }
{
    match writer.publish(number) {
        Ok(_) => Ok(writer.tell()),
        Err(e) => Err(e),
    }
}

/// The first reader looks at the opening value, and again after each of two publications, which it learns of. Then
/// three more numbers are published. The reader learns of the first and the third of them, and looks. Finally it learns
/// of the second, which is older than what it knows, and looks again. The other reader learns of nothing, and looks
/// once, after the first publication. Returns what the two readers saw.
fn look_and_learn<W: Wait>(
    writer: &mut SettingPublisher<'_, W>,
    reader: SettingReader,
    other: SettingReader,
) -> Result<([Look; 5], Look), AllocError>
    requires { SameOrigin (next reader) (published writer.old) }
{
    let (mut reader, zero) = look_once(reader, 100);
    reader.learn(publish_and_tell(writer, 7)?);
    let (mut reader, one) = look_once(reader, 100);
    let (_, not_learned) = look_once(other, 200);
    reader.learn(publish_and_tell(writer, 8)?);
    let (mut reader, two) = look_once(reader, 100);
    let first = publish_and_tell(writer, 9)?;
    let second = publish_and_tell(writer, 10)?;
    let third = publish_and_tell(writer, 11)?;
    reader.learn(first);
    reader.learn(third);
    let (mut reader, five) = look_once(reader, 100);
    reader.learn(second);
    let (_, still) = look_once(reader, 100);
    Ok(([zero, one, two, five, still], not_learned))
}

/// Creates a writer with room for `seats` readers. Returns whether its first report has the list of publications, and
/// what two readers see.
fn seen_with_seats<W: Wait>(
    rt: &W,
    alloc: Global,
    seats: usize,
) -> Result<(bool, [Look; 5], Look), AllocError>
    requires { (0 < seats) × (seats ≤ 16) }
{
    let mut writer = Writer::new(rt, alloc, opening(), opening(), seats)?;
    let reader = new_reader(&mut writer);
    let other = new_reader(&mut writer);
    let has_list = writer.tell().has_list();
    let mut writer = Publisher::new(rt, writer);
    let seen = match (reader, other) {
        (Ok(reader), Ok(other)) => look_and_learn(&mut writer, reader, other),
        _ => Err(AllocError),
    };
    writer.end();
    let (learned, not_learned) = seen?;
    Ok((has_list, learned, not_learned))
}

/// What the reader that learns sees at its five looks.
const LEARNED: [Look; 5] = [
    Some((0, 100)),
    Some((1, 107)),
    Some((2, 108)),
    Some((5, 111)),
    Some((5, 111)),
];

/// The writer reports its list of publications only if there is room for a third reader. From a report without the list
/// a reader learns only the front.
#[test]
fn a_reader_learns_again_and_again(rt: HostRuntime) -> Result<(), Fail> {
    for seats in 2..5 {
        let (has_list, learned, not_learned) = seen_with_seats(&rt, rt.alloc(), seats)?;
        assert!(rt; has_list == (seats > 2));
        assert!(rt; learned == LEARNED);
        assert!(rt; not_learned == Some((0, 200)) || not_learned == Some((1, 207)));
    }
    Ok(())
}
