ghost use Rattle.std.specs.Prelude.{◌≡◌, [], ◌∷◌};
ghost use Rattle.fixings.specs.Finals.{final_price};
ghost use Rattle.terms.specs.declared.family.Family.TheVariants.{HangSeng, MsciTaiwan};

use crate::level::Level;
use crate::mean::final_price;
use terms::Family;

/// Two worked figures. Answers how many of them the code gives too: both.
pub fn worked_figures() -> u8
    ensures hang_seng { final_price HangSeng (2012345 ∷ 2013010 ∷ 2012550 ∷ []) ≡ 2012600 }
    ensures taiwan { final_price MsciTaiwan (81234 ∷ 81235 ∷ []) ≡ 81235 }
    ensures both { result ≡ 2 }
{
    let hang_seng = final_price(
        Family::HangSeng,
        &[
            Level {
                hundredths: 2_012_345,
            },
            Level {
                hundredths: 2_013_010,
            },
        ],
        Level {
            hundredths: 2_012_550,
        },
    );
    let taiwan = final_price(
        Family::MsciTaiwan,
        &[Level { hundredths: 81_234 }],
        Level { hundredths: 81_235 },
    );
    u8::from(hang_seng.hundredths == 2_012_600) + u8::from(taiwan.hundredths == 81_235)
}
