// The boundary for other languages: the static library. include/rack.h declares its functions for C. A slice passes as a
// pointer and a length. Each function is that of the crate rack, with its clauses.
#![tactic(auto)]

ghost use Rattle.rack.specs.Boundary.{Exported, Imported, Judged, Played, Rewritten};

use rack::{export, import, play, rewrite, verdict};

#[unsafe(no_mangle)]
pub extern "C" fn rack_judge(image: &[u8], out: &mut [u8]) -> u64
    ensures { Judged image.now out.old out.new result }
{
    verdict::rack_judge(image, out)
}

#[unsafe(no_mangle)]
pub extern "C" fn rack_rewrite(image: &[u8], buf: &mut [u8]) -> u64
    ensures { Rewritten image.now buf.old buf.new result }
{
    rewrite::rack_rewrite(image, buf)
}

#[unsafe(no_mangle)]
pub extern "C" fn rack_import(list: &[u8], buf: &mut [u8]) -> u64
    ensures { Imported list.now buf.old buf.new result }
{
    import::rack_import(list, buf)
}

#[unsafe(no_mangle)]
pub extern "C" fn rack_export(image: &[u8], list: &mut [u8]) -> u64
    ensures { Exported image.now list.old list.new result }
{
    export::rack_export(image, list)
}

#[unsafe(no_mangle)]
pub extern "C" fn rack_play(image: &[u8], script: &[u8], out: &mut [u8]) -> u64
    ensures { Played image.now script.now out.old out.new result }
{
    play::rack_play(image, script, out)
}
