ghost use Rattle.std.specs.Prelude.{◌≡◌, ◌∷◌, map};
ghost use Rattle.volumes.specs.Volume.{view};
ghost use Rattle.runs.specs.History.{History};
ghost use Rattle.runs.specs.Runs.{after, run, event, history};
ghost use Rattle.runs.specs.Law.{UpheldOn};
ghost use Rattle.runs.specs.Script.{line, call_of, calls, noted, recorded, answered, played};

use crate::script::Entry;
use devices::device::SectorDevice;
use modes::WideMode;
use volumes::volume::Volume;

/// Makes the call of the entry, and puts its answer there.
fn make<D: SectorDevice, M: WideMode>(volume: &mut Volume<D, M>, entry: &mut Entry)
    ensures call_is_answered { line entry.new ≡ answered M.kind (view D.meaning M.state volume.old) (line entry.old) }
    ensures call_is_noted { (h : History) → noted (line entry.new) h ≡ event M.kind (view D.meaning M.state volume.old) (call_of (line entry.old)) ∷ h }
    ensures call_is_made { view D.meaning M.state volume.new ≡ after M.kind (view D.meaning M.state volume.old) (call_of (line entry.old)) }
{
    match entry {
        Entry::Open { key, answer } => *answer = Some(volume.open(key)),
        Entry::Read {
            sector,
            buffer,
            answer,
        } => *answer = Some(volume.read(*sector, buffer)),
        Entry::Write {
            sector,
            bytes,
            answer,
        } => *answer = Some(volume.write(*sector, bytes)),
        Entry::Begin { key, answer } => *answer = Some(volume.begin(key)),
        Entry::Step { answer } => *answer = Some(volume.step()),
        Entry::Report { answer } => *answer = Some(volume.report()),
    }
}

/// Makes the calls of a script on a volume in their order, and puts each answer into its entry. The law holds of the volume
/// before and after, with the calls and answers of the script in its history.
pub fn perform<D: SectorDevice, M: WideMode>(volume: &mut Volume<D, M>, script: &mut [Entry])
    ensures law_is_upheld { UpheldOn M.kind (view D.meaning M.state volume.old) (recorded script.new) (view D.meaning M.state volume.new).device }
    ensures answers_are_recorded { (h : History) → recorded script.new h ≡ history M.kind (view D.meaning M.state volume.old) (calls script.old) h }
    ensures entries_are_answered { map line script.new ≡ played M.kind (view D.meaning M.state volume.old) script.old }
    ensures calls_are_made { view D.meaning M.state volume.new ≡ run M.kind (view D.meaning M.state volume.old) (calls script.old) }
{
    for entry in script.iter_mut() {
        make(volume, entry);
    }
}
