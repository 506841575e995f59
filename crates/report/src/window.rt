// The part of a stream that is held: its next bytes, as many as a file may have.
ghost use Rattle.std.specs.Prelude.{◌≤◌, length};
ghost use Rattle.report.specs.Window.{Slid};

// Moves the bytes from index by up to index end to the front.
pub fn slide(window: &mut [u8], by: usize, end: usize)
    requires { (by ≤ end) × (end ≤ length window.old) }
    ensures { Slid by end window.old window.new }
{
    window.copy_within(by..end, 0);
}
