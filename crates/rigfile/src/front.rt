//! What stands before the moves of a file.
ghost use Rattle.std.specs.Prelude.{MatchOption};
ghost use Rattle.framing.specs.Frames.{Framed};
ghost use Rattle.rigfile.specs.Fronts.{Devised, Lists};

use crate::taker::MOST_COUNTED;
use framing::frames::is_framed;
use framing::reader::Reader;
use lists::names::Name;
use lists::short::Short;

/// The devices of a file: how many settings each has, and its name.
#[derive(Clone, Copy)]
pub(crate) struct Devices {
    pub(crate) settings: Short<u8, MOST_COUNTED>,
    pub(crate) names: Short<Name, MOST_COUNTED>,
}

/// A file with a sound frame, and where its parts stand.
#[derive(Clone, Copy)]
pub(crate) struct Front<'a> {
    pub(crate) devices: Devices,
    pub(crate) scene: &'a [u8],
    pub(crate) masks: &'a [u8],
    pub(crate) moves: &'a [u8],
    /// How many moves there are.
    pub(crate) count: u8,
    /// How many bytes the whole file has.
    pub(crate) total: u16,
}

impl Devices {
    /// Takes so many devices.
    fn take(reader: &mut Reader<'_>, count: u8) -> Option<Devices>
        ensures { Devised count result reader.old.rest.now reader.new.rest.now }
    {
        let mut settings = Short::new(0);
        let mut names = Short::new([0; 8]);
        for _ in 0..count {
            let [many] = reader.take::<1>()?;
            let name = reader.take::<8>()?;
            settings.push(many)?;
            names.push(name)?;
        }
        Some(Devices { settings, names })
    }
}

impl<'a> Front<'a> {
    /// The parts of a file, or nothing where the bytes have not its frame.
    pub(crate) fn of(bytes: &'a [u8]) -> Option<Front<'a>>
        ensures { MatchOption result (Framed bytes.now → ⊥) (λ f. Lists bytes.now f) }
    {
        is_framed(bytes).then_some(())?;
        let mut reader = Reader { rest: bytes };
        let header = reader.header()?;
        let devices = Devices::take(&mut reader, header.devices)?;
        let scene = reader.part(usize::from(header.devices))?;
        let masks = reader.part(usize::from(header.devices))?;
        Some(Front {
            devices,
            scene,
            masks,
            moves: reader.rest,
            count: header.moves,
            total: header.total,
        })
    }
}
