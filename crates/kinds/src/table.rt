// The table: the kinds of each byte, one entry a byte, byte 0 first. Whoever reads it calls
// `kind_table`.
use crate::{
    ALNUM, ALPHA, ASCII, BLANK, CNTRL, DIGIT, GRAPH, HORIZONTAL, LOWER, PRINT, PUNCT, SPACE, UPPER,
    VERTICAL, WORD, XDIGIT,
};

pub const KINDS: [u32; 256] = [
    ASCII | CNTRL, // 0
    ASCII | CNTRL, // 1
    ASCII | CNTRL, // 2
    ASCII | CNTRL, // 3
    ASCII | CNTRL, // 4
    ASCII | CNTRL, // 5
    ASCII | CNTRL, // 6
    ASCII | CNTRL, // 7
    ASCII | CNTRL, // 8
    SPACE | HORIZONTAL | ASCII | BLANK | CNTRL, // 9
    SPACE | VERTICAL | ASCII | CNTRL, // 10
    SPACE | VERTICAL | ASCII | CNTRL, // 11
    SPACE | VERTICAL | ASCII | CNTRL, // 12
    SPACE | VERTICAL | ASCII | CNTRL, // 13
    ASCII | CNTRL, // 14
    ASCII | CNTRL, // 15
    ASCII | CNTRL, // 16
    ASCII | CNTRL, // 17
    ASCII | CNTRL, // 18
    ASCII | CNTRL, // 19
    ASCII | CNTRL, // 20
    ASCII | CNTRL, // 21
    ASCII | CNTRL, // 22
    ASCII | CNTRL, // 23
    ASCII | CNTRL, // 24
    ASCII | CNTRL, // 25
    ASCII | CNTRL, // 26
    ASCII | CNTRL, // 27
    ASCII | CNTRL, // 28
    ASCII | CNTRL, // 29
    ASCII | CNTRL, // 30
    ASCII | CNTRL, // 31
    SPACE | HORIZONTAL | ASCII | BLANK | PRINT, // 32
    ASCII | GRAPH | PRINT | PUNCT, // 33 !
    ASCII | GRAPH | PRINT | PUNCT, // 34 "
    ASCII | GRAPH | PRINT | PUNCT, // 35 #
    ASCII | GRAPH | PRINT | PUNCT, // 36 $
    ASCII | GRAPH | PRINT | PUNCT, // 37 %
    ASCII | GRAPH | PRINT | PUNCT, // 38 &
    ASCII | GRAPH | PRINT | PUNCT, // 39 '
    ASCII | GRAPH | PRINT | PUNCT, // 40 (
    ASCII | GRAPH | PRINT | PUNCT, // 41 )
    ASCII | GRAPH | PRINT | PUNCT, // 42 *
    ASCII | GRAPH | PRINT | PUNCT, // 43 +
    ASCII | GRAPH | PRINT | PUNCT, // 44 ,
    ASCII | GRAPH | PRINT | PUNCT, // 45 -
    ASCII | GRAPH | PRINT | PUNCT, // 46 .
    ASCII | GRAPH | PRINT | PUNCT, // 47 /
    DIGIT | WORD | ALNUM | ASCII | GRAPH | PRINT | XDIGIT, // 48 0
    DIGIT | WORD | ALNUM | ASCII | GRAPH | PRINT | XDIGIT, // 49 1
    DIGIT | WORD | ALNUM | ASCII | GRAPH | PRINT | XDIGIT, // 50 2
    DIGIT | WORD | ALNUM | ASCII | GRAPH | PRINT | XDIGIT, // 51 3
    DIGIT | WORD | ALNUM | ASCII | GRAPH | PRINT | XDIGIT, // 52 4
    DIGIT | WORD | ALNUM | ASCII | GRAPH | PRINT | XDIGIT, // 53 5
    DIGIT | WORD | ALNUM | ASCII | GRAPH | PRINT | XDIGIT, // 54 6
    DIGIT | WORD | ALNUM | ASCII | GRAPH | PRINT | XDIGIT, // 55 7
    DIGIT | WORD | ALNUM | ASCII | GRAPH | PRINT | XDIGIT, // 56 8
    DIGIT | WORD | ALNUM | ASCII | GRAPH | PRINT | XDIGIT, // 57 9
    ASCII | GRAPH | PRINT | PUNCT, // 58 :
    ASCII | GRAPH | PRINT | PUNCT, // 59 ;
    ASCII | GRAPH | PRINT | PUNCT, // 60 <
    ASCII | GRAPH | PRINT | PUNCT, // 61 =
    ASCII | GRAPH | PRINT | PUNCT, // 62 >
    ASCII | GRAPH | PRINT | PUNCT, // 63 ?
    ASCII | GRAPH | PRINT | PUNCT, // 64 @
    WORD | UPPER | ALPHA | ALNUM | ASCII | GRAPH | PRINT | XDIGIT, // 65 A
    WORD | UPPER | ALPHA | ALNUM | ASCII | GRAPH | PRINT | XDIGIT, // 66 B
    WORD | UPPER | ALPHA | ALNUM | ASCII | GRAPH | PRINT | XDIGIT, // 67 C
    WORD | UPPER | ALPHA | ALNUM | ASCII | GRAPH | PRINT | XDIGIT, // 68 D
    WORD | UPPER | ALPHA | ALNUM | ASCII | GRAPH | PRINT | XDIGIT, // 69 E
    WORD | UPPER | ALPHA | ALNUM | ASCII | GRAPH | PRINT | XDIGIT, // 70 F
    WORD | UPPER | ALPHA | ALNUM | ASCII | GRAPH | PRINT, // 71 G
    WORD | UPPER | ALPHA | ALNUM | ASCII | GRAPH | PRINT, // 72 H
    WORD | UPPER | ALPHA | ALNUM | ASCII | GRAPH | PRINT, // 73 I
    WORD | UPPER | ALPHA | ALNUM | ASCII | GRAPH | PRINT, // 74 J
    WORD | UPPER | ALPHA | ALNUM | ASCII | GRAPH | PRINT, // 75 K
    WORD | UPPER | ALPHA | ALNUM | ASCII | GRAPH | PRINT, // 76 L
    WORD | UPPER | ALPHA | ALNUM | ASCII | GRAPH | PRINT, // 77 M
    WORD | UPPER | ALPHA | ALNUM | ASCII | GRAPH | PRINT, // 78 N
    WORD | UPPER | ALPHA | ALNUM | ASCII | GRAPH | PRINT, // 79 O
    WORD | UPPER | ALPHA | ALNUM | ASCII | GRAPH | PRINT, // 80 P
    WORD | UPPER | ALPHA | ALNUM | ASCII | GRAPH | PRINT, // 81 Q
    WORD | UPPER | ALPHA | ALNUM | ASCII | GRAPH | PRINT, // 82 R
    WORD | UPPER | ALPHA | ALNUM | ASCII | GRAPH | PRINT, // 83 S
    WORD | UPPER | ALPHA | ALNUM | ASCII | GRAPH | PRINT, // 84 T
    WORD | UPPER | ALPHA | ALNUM | ASCII | GRAPH | PRINT, // 85 U
    WORD | UPPER | ALPHA | ALNUM | ASCII | GRAPH | PRINT, // 86 V
    WORD | UPPER | ALPHA | ALNUM | ASCII | GRAPH | PRINT, // 87 W
    WORD | UPPER | ALPHA | ALNUM | ASCII | GRAPH | PRINT, // 88 X
    WORD | UPPER | ALPHA | ALNUM | ASCII | GRAPH | PRINT, // 89 Y
    WORD | UPPER | ALPHA | ALNUM | ASCII | GRAPH | PRINT, // 90 Z
    ASCII | GRAPH | PRINT | PUNCT, // 91 [
    ASCII | GRAPH | PRINT | PUNCT, // 92 \
    ASCII | GRAPH | PRINT | PUNCT, // 93 ]
    ASCII | GRAPH | PRINT | PUNCT, // 94 ^
    WORD | ASCII | GRAPH | PRINT | PUNCT, // 95 _
    ASCII | GRAPH | PRINT | PUNCT, // 96 `
    WORD | LOWER | ALPHA | ALNUM | ASCII | GRAPH | PRINT | XDIGIT, // 97 a
    WORD | LOWER | ALPHA | ALNUM | ASCII | GRAPH | PRINT | XDIGIT, // 98 b
    WORD | LOWER | ALPHA | ALNUM | ASCII | GRAPH | PRINT | XDIGIT, // 99 c
    WORD | LOWER | ALPHA | ALNUM | ASCII | GRAPH | PRINT | XDIGIT, // 100 d
    WORD | LOWER | ALPHA | ALNUM | ASCII | GRAPH | PRINT | XDIGIT, // 101 e
    WORD | LOWER | ALPHA | ALNUM | ASCII | GRAPH | PRINT | XDIGIT, // 102 f
    WORD | LOWER | ALPHA | ALNUM | ASCII | GRAPH | PRINT, // 103 g
    WORD | LOWER | ALPHA | ALNUM | ASCII | GRAPH | PRINT, // 104 h
    WORD | LOWER | ALPHA | ALNUM | ASCII | GRAPH | PRINT, // 105 i
    WORD | LOWER | ALPHA | ALNUM | ASCII | GRAPH | PRINT, // 106 j
    WORD | LOWER | ALPHA | ALNUM | ASCII | GRAPH | PRINT, // 107 k
    WORD | LOWER | ALPHA | ALNUM | ASCII | GRAPH | PRINT, // 108 l
    WORD | LOWER | ALPHA | ALNUM | ASCII | GRAPH | PRINT, // 109 m
    WORD | LOWER | ALPHA | ALNUM | ASCII | GRAPH | PRINT, // 110 n
    WORD | LOWER | ALPHA | ALNUM | ASCII | GRAPH | PRINT, // 111 o
    WORD | LOWER | ALPHA | ALNUM | ASCII | GRAPH | PRINT, // 112 p
    WORD | LOWER | ALPHA | ALNUM | ASCII | GRAPH | PRINT, // 113 q
    WORD | LOWER | ALPHA | ALNUM | ASCII | GRAPH | PRINT, // 114 r
    WORD | LOWER | ALPHA | ALNUM | ASCII | GRAPH | PRINT, // 115 s
    WORD | LOWER | ALPHA | ALNUM | ASCII | GRAPH | PRINT, // 116 t
    WORD | LOWER | ALPHA | ALNUM | ASCII | GRAPH | PRINT, // 117 u
    WORD | LOWER | ALPHA | ALNUM | ASCII | GRAPH | PRINT, // 118 v
    WORD | LOWER | ALPHA | ALNUM | ASCII | GRAPH | PRINT, // 119 w
    WORD | LOWER | ALPHA | ALNUM | ASCII | GRAPH | PRINT, // 120 x
    WORD | LOWER | ALPHA | ALNUM | ASCII | GRAPH | PRINT, // 121 y
    WORD | LOWER | ALPHA | ALNUM | ASCII | GRAPH | PRINT, // 122 z
    ASCII | GRAPH | PRINT | PUNCT, // 123 {
    ASCII | GRAPH | PRINT | PUNCT, // 124 |
    ASCII | GRAPH | PRINT | PUNCT, // 125 }
    ASCII | GRAPH | PRINT | PUNCT, // 126 ~
    ASCII | CNTRL, // 127
    0, // 128
    0, // 129
    0, // 130
    0, // 131
    0, // 132
    VERTICAL, // 133
    0, // 134
    0, // 135
    0, // 136
    0, // 137
    0, // 138
    0, // 139
    0, // 140
    0, // 141
    0, // 142
    0, // 143
    0, // 144
    0, // 145
    0, // 146
    0, // 147
    0, // 148
    0, // 149
    0, // 150
    0, // 151
    0, // 152
    0, // 153
    0, // 154
    0, // 155
    0, // 156
    0, // 157
    0, // 158
    0, // 159
    HORIZONTAL, // 160
    0, // 161
    0, // 162
    0, // 163
    0, // 164
    0, // 165
    0, // 166
    0, // 167
    0, // 168
    0, // 169
    0, // 170
    0, // 171
    0, // 172
    0, // 173
    0, // 174
    0, // 175
    0, // 176
    0, // 177
    0, // 178
    0, // 179
    0, // 180
    0, // 181
    0, // 182
    0, // 183
    0, // 184
    0, // 185
    0, // 186
    0, // 187
    0, // 188
    0, // 189
    0, // 190
    0, // 191
    0, // 192
    0, // 193
    0, // 194
    0, // 195
    0, // 196
    0, // 197
    0, // 198
    0, // 199
    0, // 200
    0, // 201
    0, // 202
    0, // 203
    0, // 204
    0, // 205
    0, // 206
    0, // 207
    0, // 208
    0, // 209
    0, // 210
    0, // 211
    0, // 212
    0, // 213
    0, // 214
    0, // 215
    0, // 216
    0, // 217
    0, // 218
    0, // 219
    0, // 220
    0, // 221
    0, // 222
    0, // 223
    0, // 224
    0, // 225
    0, // 226
    0, // 227
    0, // 228
    0, // 229
    0, // 230
    0, // 231
    0, // 232
    0, // 233
    0, // 234
    0, // 235
    0, // 236
    0, // 237
    0, // 238
    0, // 239
    0, // 240
    0, // 241
    0, // 242
    0, // 243
    0, // 244
    0, // 245
    0, // 246
    0, // 247
    0, // 248
    0, // 249
    0, // 250
    0, // 251
    0, // 252
    0, // 253
    0, // 254
    0, // 255
];
