// The version that a program is linked with. The header has its own, and one that does not fit it would be told by nothing else: the linker compares names alone.
ghost use Rattle.std.specs.Prelude.{◌≡◌};
ghost use Rattle.valdrabus.specs.Version.{version};

// The version, as one number.
// Rules out: the minor number told as the patch; no version told (must-fail: one_for_another, one_answer_always).
#[unsafe(no_mangle)]
pub extern "C" fn valdrabus_version() -> u32
    ensures { result ≡ version }
{
    200
}
