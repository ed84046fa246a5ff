// Copying the records of a chart file, one memory at a time.
ghost use Rattle.std.specs.Prelude.{◌≡◌};
ghost use Rattle.chart_file.specs.Checks.{copied};

use crate::frame::Frame;
use crate::layout::Record;

// Copies the records of a type over the first of the memory. Nothing is written where the file has no trailer within
// the limits, or the memory is too short.
pub fn copy_records<R: Record>(file: &[u8], memory: &mut [R])
    ensures { memory.new ≡ copied R.layout file.now memory.old }
{
    let Ok(frame) = Frame::open(file) else {
        return;
    };
    if usize::from(R::count(frame.trailer)) > memory.len() {
        return;
    }
    frame.write(memory);
}
