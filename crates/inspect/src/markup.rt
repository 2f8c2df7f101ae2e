// The texts of which the picture is made, where no number stands in them.

// The whole picture's begin.
pub(crate) const START: &str = "<svg xmlns=\"http://www.w3.org/2000/svg\" viewBox=\"0 0 960 970\">\
    <style>.a{fill:#cfe0f4}.b{fill:#ecf3fb}.o{fill:#d9d9d9}.p{stroke:#6d8bad;stroke-width:300;stroke-dasharray:1500}\
    .g{stroke:#fff;stroke-width:300}.v{fill:none;stroke:#14499c;stroke-width:700}.x{stroke:#e01b1b;stroke-width:3000}\
    text{font:13px sans-serif;fill:#444}.t{font-size:16px}.r{text-anchor:end}</style>\
    <path fill=\"#fff\" d=\"M0 0h960v970H0\"/>\n";

// Its end, which says what shades and lines mean.
pub(crate) const END: &str =
    "<g transform=\"translate(70 932)\"><svg width=\"860\" height=\"14\" viewBox=\"0 0 262144 4267\">\
    <path class=\"a\" d=\"M0 0h6000v5000H0\"/><path class=\"b\" d=\"M6000 0h6000v5000h-6000\"/>\
    <path class=\"p\" d=\"M6000 0v5000\"/><path class=\"o\" d=\"M71000 0h12000v5000h-12000\"/>\
    <path class=\"v\" d=\"M148000 2100h12000\"/><path class=\"x\" d=\"M201000 2100h12000\"/></svg>\
    <text x=\"48\" y=\"12\">pieces, from pivot to pivot</text><text x=\"281\" y=\"12\">outside the pivots, clamped</text>\
    <text x=\"533\" y=\"12\">mapped sample</text><text x=\"707\" y=\"12\">cut: mapped to 0 or 65535</text></g></svg>\n";

// The panel, up to its first piece.
pub(crate) const PANEL: &str =
    "</text><svg width=\"860\" height=\"215\" viewBox=\"0 0 262144 65536\"><path class=\"o\" d=\"M0 0h262144v65536H0\"/>";

// The lines across it.
pub(crate) const GRID: &str =
    "<path class=\"g\" d=\"M0 16384h262144M0 32768h262144M0 49152h262144\"/>";

// The numbers at its axes, up to that of the last code.
pub(crate) const AXES: &str =
    "</svg><text class=\"r\" x=\"-8\" y=\"10\">65535</text><text class=\"r\" x=\"-8\" y=\"215\">0</text>\
    <text y=\"231\">0</text><text class=\"r\" x=\"860\" y=\"231\">";
