// The version of the layout.
ghost use Rattle.std.specs.Prelude.{◌≡◌};
ghost use Rattle.numbers.specs.Layout.{layout_version};

// The version of the layout, of what callers lend and which number stands where. It is raised with each change, so that a
// program built for another one can notice.
#[unsafe(no_mangle)]
pub extern "C" fn lefkanu_layout_version() -> u32
    ensures { result ≡ layout_version }
{
    numbers::layout_version()
}
