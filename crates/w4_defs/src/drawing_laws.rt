//! Laws of the drawing definitions. A function here does nothing: its contract is the law.

ghost use Rattle.w4_defs.specs.Blit.{OverlapCase, TurnedCase};
ghost use Rattle.w4_defs.specs.Colours.{ColoursCase};
ghost use Rattle.w4_defs.specs.Framebuffer.{PaintIsPainted, PaintIsTheOne, PaintOnScreen, PaintTwice, PixelCase};
ghost use Rattle.w4_defs.specs.Image.{ImageLength};
ghost use Rattle.w4_defs.specs.MemoryMap.{InputIsPut, PaintLeavesRegisters};
ghost use Rattle.w4_defs.specs.Shapes.{LineCase, MinorStepIsCeiling, OvalCase, RectCase};
ghost use Rattle.w4_defs.specs.Text.{SourceCase, TextCase};
ghost use Rattle.w4_defs.specs.WorkedDrawings.{CutSprite, OblongOvals, OneSidedGlyph, SteepAndLeftLines, TurnedSprites};

/// Painting gives the one page whose pixels are the painter's where it gives a palette index and unchanged
/// where it gives none, with all bytes outside the framebuffer unchanged.
pub fn painting_laws()
    ensures is_painted { PaintIsPainted }
    ensures only_one { PaintIsTheOne }
    ensures twice { PaintTwice }
    ensures on_screen { PaintOnScreen }
{}

/// An input is put into its nine bytes alone, and painting leaves every register.
pub fn register_laws()
    ensures input { InputIsPut }
    ensures painted { PaintLeavesRegisters }
{}

/// Every image has 76,815 bytes.
pub fn image_law()
    ensures { ImageLength }
{}

/// The lesser distance of a line is divided among its steps by rounding up.
pub fn line_law()
    ensures { MinorStepIsCeiling }
{}

/// Worked cases, by computation.
pub fn drawing_cases()
    ensures pixel { PixelCase }
    ensures colours { ColoursCase }
    ensures rect { RectCase }
    ensures oval { OvalCase }
    ensures line { LineCase }
    ensures turned { TurnedCase }
    ensures overlap { OverlapCase }
    ensures text { TextCase }
    ensures source { SourceCase }
    ensures ovals { OblongOvals }
    ensures lines { SteepAndLeftLines }
    ensures sprites { TurnedSprites }
    ensures cut { CutSprite }
    ensures glyph { OneSidedGlyph }
{}
