// The number of this interface. A caller holds it against its own before any struct crosses.
ghost use Rattle.std.specs.Prelude.{◌≡◌};
ghost use Rattle.trace_c.specs.Interface.{interface};

#[unsafe(no_mangle)]
pub extern "C" fn tfk_interface() -> u64
    ensures { result ≡ interface }
{
    6
}
