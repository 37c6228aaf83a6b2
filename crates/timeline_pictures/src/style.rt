//! How things look.

/// The styles of a picture: on light paper, and on a dark screen.
pub(crate) const STYLE: &[u8] = b"<style>\n\
.page{fill:#fff}\n\
text{font:12px sans-serif;fill:#222}\n\
.head{font-size:15px;font-weight:bold}\n\
.note{font-size:10px;fill:#666}\n\
.in{font-size:11px;fill:#fff}\n\
.grid{stroke:#ddd;stroke-width:.5}\n\
.b{fill:#33679c}\n\
.i{fill:#9dbfdc}\n\
.w{fill:#ccc}\n\
.p{fill:#d1480f}\n\
.a{stroke:#888;stroke-width:.8;fill:none}\n\
.c{stroke:#d1480f;stroke-width:1.4;fill:none}\n\
.at{fill:#888}\n\
@media screen and (prefers-color-scheme:dark){\n\
.page{fill:#16181c}\n\
text{fill:#e4e4e4}\n\
.note{fill:#a0a0a0}\n\
.in{fill:#fff}\n\
.grid{stroke:#3a3d42}\n\
.b{fill:#3f7ab8}\n\
.i{fill:#2c4a66}\n\
.w{fill:#4a4d52}\n\
.p{fill:#ff8a4c}\n\
.a{stroke:#8a8d92}\n\
.c{stroke:#ff8a4c}\n\
.at{fill:#8a8d92}\n\
}\n\
</style>\n";

/// The heads of arrows.
pub(crate) const HEADS: &[u8] = b"<defs>\n\
<marker id=\"at\" viewBox=\"0 0 8 8\" refX=\"8\" refY=\"4\" markerWidth=\"7\" markerHeight=\"7\" markerUnits=\"userSpaceOnUse\" orient=\"auto\"><path class=\"at\" d=\"M0 0L8 4L0 8z\"/></marker>\n\
<marker id=\"ct\" viewBox=\"0 0 8 8\" refX=\"8\" refY=\"4\" markerWidth=\"9\" markerHeight=\"9\" markerUnits=\"userSpaceOnUse\" orient=\"auto\"><path class=\"p\" d=\"M0 0L8 4L0 8z\"/></marker>\n\
</defs>\n";
