ghost use Rattle.std.specs.Prelude.{◌≡◌, [], ◌∷◌};

use devices::device::SectorDevice;
use images::Image;

/// A caller knows its own bytes again once the image is gone.
pub fn two_writes() -> [u8; 7]
    ensures { result ≡ 0 ∷ 0 ∷ 7 ∷ 8 ∷ 0 ∷ 0 ∷ 0 ∷ [] }
{
    let mut row = [0; 7];
    let mut image = Image::new(&mut row, 2);
    let _ = image.write(1, &[7, 8]);
    let _ = image.write(3, &[9, 9]);
    row
}
