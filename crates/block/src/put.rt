// Numbers one behind the other, four bytes each, low byte first.
ghost use Rattle.std.specs.Prelude.{◌≡◌, ◌*◌, length};
ghost use Rattle.rules.specs.Block.{in_bytes};

// The bytes of a number in a block.
const WIDTH: usize = 4;

pub fn put_numbers(numbers: &[usize], block: &mut [u8])
    requires { length block.old ≡ length numbers.now * 4 }
    ensures { block.new ≡ in_bytes numbers.now }
{
    for (i, number) in numbers.iter().enumerate() {
        let at = i * WIDTH;
        let bytes = number.to_le_bytes();
        block[at..at + WIDTH].copy_from_slice(&bytes[..WIDTH]);
    }
}
