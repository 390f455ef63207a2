ghost use Rattle.std.specs.Prelude.{◌≡◌, ◌≤◌, length};
ghost use Rattle.schedule_text.specs.Reading.{tells_next};

use line_reader::{NEWLINE, Reader};

/// Whether the next line was read ahead to its newline and is not skipped, so that it is read without a read of the source.
pub fn is_line_ahead(reader: &Reader) -> bool
    ensures is { result ≡ tells_next reader.now.ahead }
    ensures few { length reader.now.ahead ≤ 4096 }
{
    reader.is_line_ahead() && !matches!(reader.ahead(), [NEWLINE | b'#', ..])
}
