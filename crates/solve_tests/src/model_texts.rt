//! The texts of small models.

pub(crate) const TWO_COINS: &str =
    "NAME two coins\nROWS\n N cost\n E r\nCOLUMNS\n x r 3\n y r 5\nRHS\n r 8\nBOUNDS\n UI x 10\n UI y 10\nENDATA\n";

// The last entry that sets a side counts.
pub(crate) const TWO_COINS_AGAIN: &str =
    "NAME two coins\nROWS\n N cost\n E r\nCOLUMNS\n x r 3\n y r 5\nRHS\n r 8\nBOUNDS\n UI x 0\n UI x 10\n UI y 10\n UI y 10\nENDATA\n";

pub(crate) const TWO_COINS_UNREACHABLE: &str =
    "NAME two coins, unreachable\nROWS\n N cost\n E r\nCOLUMNS\n x r 3\n y r 5\nRHS\n r 7\nBOUNDS\n UI x 10\n UI y 10\nENDATA\n";

pub(crate) const EVEN_SUM: &str =
    "NAME even sum\nROWS\n N cost\n E r\nCOLUMNS\n x r 2\n y r 4\nRHS\n r 7\nBOUNDS\n UI x 10\n UI y 10\nENDATA\n";

// The row weighs exactly 2^96.
pub(crate) const HEAVY: &str =
    "NAME heavy\nROWS\n L r\nCOLUMNS\n x r 1\nRHS\n r 79228162514264337593543950335\nBOUNDS\n BV x\nENDATA\n";

pub(crate) const EMPTY: &str = "NAME\nROWS\nCOLUMNS\nENDATA\n";

pub(crate) const PARITY_PAIR: &str =
    "NAME parity pair\nROWS\n E a\n E b\nCOLUMNS\n x a 1 b 1\n y a 1 b -1\nRHS\n a 1\nBOUNDS\n BV x\n BV y\nENDATA\n";

pub(crate) const THIN_TRIANGLE: &str =
    "NAME thin triangle\nROWS\n G a\n G b\n L c\nCOLUMNS\n x a 10 b 1\n x c 10\n y a 1 b 10\n y c 11\nRHS\n a 2 b 2\n c 19\nBOUNDS\n UI x 2\n UI y 2\nENDATA\n";

// 301 <= 1001x - 1000y <= 699
pub(crate) const SKEW_STRIP: &str =
    "NAME skew strip\nROWS\n G r\nCOLUMNS\n x r 1001\n y r -1000\nRHS\n r 301\nRANGES\n r 398\nBOUNDS\n UI x 300\n UI y 300\nENDATA\n";

pub(crate) const TWO_CONSTRAINTS: &str =
    "NAME two constraints\nROWS\n N cost\n L a\n L b\nCOLUMNS\n x cost -5 a 6\n x b 1\n y cost -4 a 4\n y b 2\nRHS\n a 24 b 6\nBOUNDS\n UI x 10\n UI y 10\nENDATA\n";

pub(crate) const PRICED: &str =
    "NAME priced\nROWS\n N c\nCOLUMNS\n M1 'MARKER' 'INTORG'\n x c 1\n M2 'MARKER' 'INTEND'\nENDATA\n";

pub(crate) const RANGED: &str =
    "NAME ranged\nROWS\n N c\n E r\nCOLUMNS\n x c 1 r 1\nRHS\n r 5\nRANGES\n r -3\nBOUNDS\n UI x 9\nENDATA\n";

pub(crate) const SPLIT_FREE: &str =
    "NAME SLICER\nROWS\n N COST\n E R1\n E R2\nCOLUMNS\n X1 R1 71\n X1 R2 37\n X2 R1 94\n X2 R2 41\n X3 R1 86\n X3 R2 83\nRHS\n R1 125\n R2 80\nBOUNDS\n LI X1 0\n UI X1 1\n LI X2 0\n UI X2 1\n LI X3 0\n UI X3 1\nENDATA\n";

pub(crate) const SPLIT_FIXED: &str =
    "NAME          SPLIT\r\nROWS\r\n N  COST\r\n E  R1\r\n E  R2\r\nCOLUMNS\r\n    MARK0     'MARKER'                 'INTORG'\r\n    X1        R1        71             R2        37\r\n    X2        R1        94             R2        41\r\n    X3        R1        86             R2        83\r\n    MARK1     'MARKER'                 'INTEND'\r\nRHS\r\n    RHS       R1        125            R2        80\r\nBOUNDS\r\n UP BND       X1        1\r\n UP BND       X2        1\r\n UP BND       X3        1\r\nENDATA\r\n";

// The files of the folder `examples`.
pub(crate) const LARGE_COINS: &str =
    "NAME large coins\nROWS\n N cost\n E r\nCOLUMNS\n x r 10007\n y r 10009\nRHS\n r 100140047\nBOUNDS\n UI x 20000\n UI y 20000\nENDATA\n";

// Coins of 2^70 and of 2^70 + 1, of which there is one each.
pub(crate) const FAR_COINS: &str =
    "NAME far coins\nROWS\n N cost\n E r\nCOLUMNS\n x r 1180591620717411303424\n y r 1180591620717411303425\nRHS\n r 1180591620717411303425\nBOUNDS\n UI x 1\n UI y 1\nENDATA\n";

pub(crate) const EVEN_SUM_FAR: &str =
    "NAME an even sum is no odd number\nROWS\n E sum\nCOLUMNS\n x sum 2\n y sum 4\nRHS\n sum 7\nBOUNDS\n UI x 1000000\n UI y 1000000\nENDATA\n";

pub(crate) const PARITY_LINES: &str =
    "NAME two numbers whose sum is odd and whose difference is 0\nROWS\n E sum\n E difference\nCOLUMNS\n x sum 1\n x difference 1\n y sum 1\n y difference -1\nRHS\n sum 1\nBOUNDS\n UI x 1\n UI y 1\nENDATA\n";

pub(crate) const HALVES: &str =
    "* half of a dozen and a half at least\nNAME halves\nROWS\n N cost\n G r\nCOLUMNS\n x r 0.5\nRHS\n r 1.25 cost 1.5\nBOUNDS\n UI x 3.5\nENDATA\n";
