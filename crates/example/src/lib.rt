// The worked example: a small design with all its parts, whose figures can be checked by hand.
#![tactic(auto)]

ghost use Rattle.std.specs.Prelude.{◌≡◌};
ghost use Rattle.example.specs.Example.{example_bytes};

// Its record: two supplies, three modules, two nets.
pub fn record_bytes() -> [u8; 64]
    ensures { result ≡ example_bytes }
{
    [
        0x1f, 0, 0, 0, 16, 0, 1, 0, 2, 3, 0, 2, 0x03, 0x04, 0xb0, 0x03, 0xe8, 0x03, 0, 4, 0, 0, 0,
        30, 0, 6, 0, 0, 0, 18, 0x03, 0, 3, 0, 0, 0, 20, 0, 5, 0, 0, 0, 11, 0x03, 0, 5, 0, 0, 0, 40,
        0, 8, 0, 0, 0, 22, 0x07, 0, 1, 0, 1, 0x03, 1, 2,
    ]
}
